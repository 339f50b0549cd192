// The words of a line: bytes that stand apart by spaces or tabs. `#` starts a comment that runs to the line's end.
ghost use Rattle.std.specs.Prelude.{◌≡◌, ◌<◌, ◌≤◌, IfSome, length, take};

use input::Reader;

// The longest word that a call can have is 17 bytes long, so one that is cut at 18 fits no call.
#[derive(Clone, Copy)]
pub struct Word {
    bytes: [u8; 18],
    len: usize,
    ghost within: { len ≤ length bytes },
}

impl Word {
    fn new() -> Word
        ensures { result.len ≡ 0 }
    {
        Word {
            bytes: [0; 18],
            len: 0,
        }
    }

    // With a byte more, if there is room.
    fn push(&mut self, byte: u8) {
        if self.len < self.bytes.len() {
            self.bytes[self.len] = byte;
            self.len += 1;
        }
    }

    pub fn text(&self) -> &[u8]
        ensures { result.now ≡ take self.now.len self.now.bytes }
    {
        &self.bytes[..self.len]
    }
}

fn is_blank(byte: u8) -> bool {
    matches!(byte, b' ' | b'\t')
}

fn ends_word(byte: u8) -> bool {
    matches!(byte, b' ' | b'\t' | b'\n' | b'#')
}

fn skip_blanks(reader: &mut Reader) {
    for _ in 0..input::MOST {
        if !is_blank(reader.peek()) {
            return;
        }
        reader.next();
    }
}

// The line's next word, if it has one more.
pub fn next(reader: &mut Reader) -> Option<Word>
    ensures { IfSome result (λ word. 0 < word.len) }
{
    skip_blanks(reader);
    let mut word = Word::new();
    for _ in 0..input::MOST {
        let byte = reader.peek();
        if ends_word(byte) {
            break;
        }
        word.push(byte);
        reader.next();
    }
    if word.len == 0 { None } else { Some(word) }
}

// Past the line's end, whatever the line still has.
pub fn skip_line(reader: &mut Reader) {
    for _ in 0..input::MOST {
        let byte = reader.peek();
        reader.next();
        if byte == b'\n' {
            return;
        }
    }
}
