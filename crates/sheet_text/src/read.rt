// Reading a bench sheet: four lines, each a key, a value and a newline.
ghost use Rattle.std.specs.Prelude.{◌≡◌, ◌-◌, ◌<◌, MatchOption, Some, None, IfSome, length, take, drop};
ghost use Rattle.std.specs.List.{position};
ghost use Rattle.sheet_text.specs.Text.{is_newline};
ghost use Rattle.sheet_text.specs.Reading.{cut, asked, read_of, text_number, read_answer};

use sheet_values::{Op, digit_of, is_hex, number_of, op_of};

// A sheet has at most so many bytes, and in a buffer of one more a longer text shows.
const LONGEST: usize = 8192;

pub const TEXT_ROOM: usize = LONGEST + 1;

// The parts of a well-formed sheet; the frame is in hex.
#[derive(Clone, Copy, Debug)]
pub struct Request<'a> {
    pub code: usize,
    pub op: Op,
    pub limit: usize,
    pub frame: &'a [u8],
}

fn line_end(s: &[u8]) -> Option<usize>
    ensures { result ≡ position is_newline s.now }
{
    s.iter().position(|&b| b == b'\n')
}

// The value of the line at the front, which has the key, and the text after the line.
#[tactic(auto, unfolding(crate::specs::Reading::cut))]
fn cut<'a>(text: &'a [u8], key: &[u8]) -> Option<(&'a [u8], &'a [u8])>
    ensures { MatchOption result (cut key.now text.now ≡ None) (λ p. cut key.now text.now ≡ Some (p.0.now, p.1.now)) }
{
    let line = text.strip_prefix(key)?;
    let end = line_end(line)?;
    Some((&line[..end], &line[end + 1..]))
}

// Reads a sheet: its parts, or that it is malformed. The frame is the part of the text that ends before the last newline.
#[tactic(auto, unfolding(crate::specs::Reading::parse))]
pub fn read(text: &[u8]) -> Option<Request<'_>>
    ensures parts { asked result ≡ read_of text.now }
    ensures number { text_number (asked result) ≡ read_answer text.now }
    ensures place { IfSome result (λ q. q.frame.now ≡ take (length q.frame.now) (drop (length text.now - 1 - length q.frame.now) text.now)) }
    ensures inside { IfSome result (λ q. length q.frame.now < length text.now) }
{
    if text.len() > LONGEST {
        return None;
    }
    let (code, rest) = cut(text, b"code=")?;
    let (op, rest) = cut(rest, b"op=")?;
    let (limit, rest) = cut(rest, b"maxiters=")?;
    let (frame, rest) = cut(rest, b"frame=")?;
    let request = Request {
        code: digit_of(code)?,
        op: op_of(op)?,
        limit: number_of(limit)? as usize, // From does not make a usize of a u32
        frame,
    };
    (is_hex(frame) && rest.is_empty()).then_some(request)
}
