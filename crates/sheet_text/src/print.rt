// Printing an answer: four lines, each a key, a value and a newline.
ghost use Rattle.std.specs.Prelude.{◌≡◌, ◌+◌, ◌*◌, ◌<◌, ◌≤◌, [], ◌∷◌, ◌++◌, length, take};
ghost use Rattle.sheet_values.specs.Spelling.{glyph, decimal, hex};
ghost use Rattle.sheet_text.specs.Text.{line};
ghost use Rattle.sheet_text.specs.Printing.{printed, max_output, room};

use report::Report;
use std::marker::Model;

// The most output bytes that are printed: no output of the library is longer.
const MAX_OUTPUT: usize = 1280;

// Room for that, and for one more line.
pub const ROOM: usize = 2720;

// The text of an answer, at the front of the bytes, with zeros behind it: fixed memory, no heap.
#[derive(Clone, Copy)]
pub struct Answer {
    pub len: usize,
    pub bytes: [u8; ROOM],
}

impl Model for Answer {
    ghost use Rattle.std.specs.Prelude.{List, ℕ, ◌++◌, ◌-◌, length, take, replicate};
    ghost use Rattle.sheet_text.specs.Printing.{room, Zeroed, text_length, text_and_zeros};

    ghost Value = { List ℕ };

    ghost view = { λ a. take a.len a.bytes };

    ghost invariant = { λ a. Zeroed a.len a.bytes };

    ghost inverse = { λ t. record { len = length t; bytes = t ++ replicate (room - length t) 0 } };

    ghost inverse_ok = { λ a h i. record { len = text_length a.len a.bytes h i; bytes = text_and_zeros a.len a.bytes h i } };
}

impl Answer {
    fn new() -> Self
        ensures { result ≡ [] }
    {
        Answer {
            len: 0,
            bytes: [0; ROOM],
        }
    }

    pub fn as_slice(&self) -> &[u8]
        ensures { result.now ≡ self.now }
    {
        &self.bytes[..self.len]
    }

    fn put_word(&mut self, word: &[u8])
        requires { length self.old + length word.now ≤ room }
        ensures { self.new ≡ self.old ++ word.now }
    {
        let end = self.len + word.len();
        self.bytes[self.len..end].copy_from_slice(word);
        self.len = end;
    }

    // (By hand, as `put_decimal`.)
    fn put_digit(&mut self, d: u8)
        requires room { length self.old < room }
        requires digit { d < 16 }
        ensures { self.new ≡ self.old ++ glyph d ∷ [] }
    {
        self.bytes[self.len] = if d < 10 { b'0' + d } else { b'a' + (d - 10) };
        self.len += 1;
    }

    // (By hand: a formatter writes to what can fail, and the text of an answer cannot. A digit's cast is proved to fit.)
    fn put_decimal(&mut self, n: usize)
        requires { length self.old + length (decimal n) ≤ room }
        ensures { self.new ≡ self.old ++ decimal n }
    {
        if n >= 10 {
            self.put_decimal(n / 10);
        }
        self.put_digit((n % 10) as u8);
    }

    fn put_hex(&mut self, s: &[u8])
        requires { length self.old + 2 * length s.now ≤ room }
        ensures { self.new ≡ self.old ++ hex s.now }
    {
        for b in s {
            self.put_digit(b / 16);
            self.put_digit(b % 16);
        }
    }

    // A number has at most 20 digits.
    fn number_line(&mut self, key: &[u8], n: usize)
        requires { length self.old + length key.now + 21 ≤ room }
        ensures text { self.new ≡ self.old ++ line key.now (decimal n) }
        ensures low { length self.new ≤ length self.old + length key.now + 21 }
    {
        self.put_word(key);
        self.put_decimal(n);
        self.put_word(b"\n");
    }

    fn hex_line(&mut self, key: &[u8], s: &[u8])
        requires { length self.old + length key.now + 2 * length s.now + 1 ≤ room }
        ensures { self.new ≡ self.old ++ line key.now (hex s.now) }
    {
        self.put_word(key);
        self.put_hex(s);
        self.put_word(b"\n");
    }
}

// The text of an answer; of an output that is too long, its first bytes.
pub fn print(r: Report, output: &[u8]) -> Answer
    ensures { result ≡ printed r.answer r.success r.iters (take max_output output.now) }
{
    let mut text = Answer::new();
    text.number_line(b"answer=", usize::from(r.answer));
    text.number_line(b"success=", usize::from(r.success));
    text.number_line(b"iters=", r.iters);
    text.hex_line(b"output=", &output[..output.len().min(MAX_OUTPUT)]);
    text
}
