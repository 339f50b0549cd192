// Standard output, through a buffer.
#![tactic(auto)]

pub mod nodes;
pub mod replies;
pub mod routes;

ghost use Rattle.std.specs.Prelude.{◌≡◌, ◌≤◌, length};

use state::State;
use std::io::{Stdout, Write};

// The bytes that are used have still to be written. A full buffer is written first.
#[derive(Drop)]
pub struct Out {
    stdout: Stdout,
    bytes: [u8; 4096],
    used: usize,
    ghost within: { used ≤ length bytes },
}

impl Out {
    pub fn new(stdout: Stdout) -> Out
        ensures { result.used ≡ 0 }
    {
        Out {
            stdout,
            bytes: [0; 4096],
            used: 0,
        }
    }

    // Writes the bytes that are used, and none are used any more. What cannot be written is lost.
    pub fn flush(&mut self)
        ensures { self.new.used ≡ 0 }
    {
        let _ = self.stdout.write_all(&self.bytes[..self.used]);
        self.used = 0;
    }

    pub fn byte(&mut self, byte: u8) {
        if self.used == self.bytes.len() {
            self.flush();
        }
        self.bytes[self.used] = byte;
        self.used += 1;
    }

    pub fn text(&mut self, text: &[u8]) {
        for byte in text {
            self.byte(*byte);
        }
    }

    pub fn number(&mut self, n: usize) {
        let mut digits = [0u8; 20];
        let k = io::decimal(n as u64, &mut digits);
        self.text(&digits[..k]);
    }

    // `x` and the bits in 16 hexadecimal digits.
    pub fn float(&mut self, x: f64) {
        let mut digits = [0u8; 16];
        let k = io::hex(numeral::to_bits(x), 16, &mut digits);
        self.byte(b'x');
        self.text(&digits[..k]);
    }

    // Its three numbers, apart by a space.
    pub fn state(&mut self, s: State) {
        self.float(s.az);
        self.byte(b' ');
        self.float(s.el);
        self.byte(b' ');
        self.float(s.feed);
    }
}
