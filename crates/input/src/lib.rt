// Standard input, byte after byte, through a buffer.
#![tactic(auto)]

ghost use Rattle.std.specs.Prelude.{◌≡◌, ◌<◌, ◌≤◌, length, slice_index};

use std::io::{Read, Stdin};

// More turns than any input has bytes: what a loop over input takes at most, so that it is seen to end.
pub const MOST: u64 = 0x4000_0000_0000_0000;

// The bytes from at to end of the buffer are still to be read.
#[derive(Drop)]
pub struct Reader {
    stdin: Stdin,
    bytes: [u8; 65536],
    at: usize,
    end: usize,
    ended: bool,
    ghost within: { end ≤ length bytes },
}

impl Reader {
    ghost use Rattle.input.specs.Place.{place_of, new_of, next_of};

    // Before the first byte.
    #[tactic(auto, unfolding(crate::specs::Place::new_of))]
    pub fn new(stdin: Stdin) -> Reader
        ensures { place_of result ≡ new_of }
    {
        Reader {
            stdin,
            bytes: [0; 65536],
            at: 0,
            end: 0,
            ended: false,
        }
    }

    // With bytes to read, unless the input has ended. A read that fails ends it.
    fn fill(&mut self)
        ensures { self.old.at < self.old.end → self.new ≡ self.old }
    {
        if self.at < self.end || self.ended {
            return;
        }
        self.at = 0;
        self.end = self.stdin.read(&mut self.bytes).unwrap_or(0);
        self.ended = self.end == 0;
    }

    // The next byte, which is not passed yet. The end of the input reads as a line's end, which may be missing there.
    pub fn peek(&mut self) -> u8
        ensures kept { self.old.at < self.old.end → self.new ≡ self.old }
        ensures byte { self.new.at < self.new.end → result ≡ slice_index self.new.bytes self.new.at }
        ensures ending { self.new.end ≤ self.new.at → result ≡ 10 }
    {
        self.fill();
        if self.end <= self.at {
            return b'\n';
        }
        self.bytes[self.at]
    }

    // Past the next byte. The end of the input is not passed.
    #[tactic(auto, using(std::proofs::lemmas::Bool::Decides::nat_tests), unfolding(crate::specs::Place::next_of))]
    pub fn next(&mut self)
        ensures place { place_of self.new ≡ next_of (place_of self.old) }
        ensures bytes { self.new.bytes ≡ self.old.bytes }
    {
        if self.at < self.end {
            self.at += 1;
        }
    }

    // Whether all of the input has been read.
    pub fn has_ended(&self) -> bool
        ensures { result ≡ self.now.ended }
    {
        self.ended
    }
}
