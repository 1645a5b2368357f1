// The bench sheet: four lines of text that ask for one operation, and four that answer.

#![tactic(auto)]

ghost use Rattle.std.specs.Prelude.{◌≡◌};
ghost use Rattle.sheet.specs.Refused.{text_of};
ghost use Rattle.sheet.specs.Sheet.{sheet_of};

mod operations;

use codes::refusal::Refusal;
use operations::{encode, flip, soft};
use report::Report;
use sheet_text::print::{Answer, print};
use sheet_text::read::read;
use sheet_values::{Op, hex_bytes};

// Why a sheet is refused: the text is none, it asks for min-sum of a code for which a sheet has no room, or the library refuses the call.
#[derive(Clone, Copy, Debug, PartialEq, Eq)]
pub enum Refused {
    Malformed,
    NoRoom,
    By(Refusal),
}

impl Refused {
    ghost use Rattle.sheet.specs.Refused.{number};

    pub fn number(self) -> u8
        ensures { result ≡ number self }
    {
        match self {
            Refused::Malformed => 9,
            Refused::NoRoom => 14,
            Refused::By(why) => why.number(),
        }
    }
}

impl From<Refusal> for Refused {
    ghost use Rattle.sheet.specs.declared.Refused.TheVariants.{By};

    ghost from_gives = { λ why r. r ≡ By why };

    fn from(why: Refusal) -> Self {
        Refused::By(why)
    }
}

fn answer(text: &[u8]) -> Result<Answer, Refused>
    ensures { text_of result ≡ sheet_of text.now }
{
    let q = read(text).ok_or(Refused::Malformed)?;
    let mut frame = [0u8; 4080];
    hex_bytes(q.frame, &mut frame);
    let frame = &frame[..q.frame.len() / 2];
    // A match, and no table of functions: each operation has buffers of its own.
    match q.op {
        Op::Encode => encode(q.code, frame),
        Op::Bf => flip(q.code, frame, q.limit),
        Op::Ms => soft(q.code, frame, q.limit),
    }
}

// The answer to a sheet, whatever the text; a refusal prints no output byte.
pub fn sheet(text: &[u8]) -> Answer
    ensures { result ≡ sheet_of text.now }
{
    match answer(text) {
        Ok(printed) => printed,
        Err(why) => print(Report::refused(why.number()), &[]),
    }
}
