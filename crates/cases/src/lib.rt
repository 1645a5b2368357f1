// A case of the list that `replay` runs: an operation with what it reads, and what the Rust answered.

#![tactic(auto)]

ghost use Rattle.std.specs.Prelude.{◌≡◌};
ghost use Rattle.maths.specs.Tests.{Agrees};
ghost use Rattle.cases.specs.Cases.{Numbers, Heads, read_len, written_len, recorded};

use codes::CodeParams;
use report::{Ended, Report};

pub mod soft;

// What a case runs. The list numbers them from 1, in this order.
#[derive(Clone, Copy, Debug, PartialEq, Eq)]
pub enum Operation {
    Encoders,
    BitFlipping,
    MinSum,
    HardToLlrs,
    LlrsToHard,
    Sheet,
}

// A number that no operation has.
#[derive(Clone, Copy, Debug, PartialEq, Eq)]
pub struct UnknownOperation(pub u8);

impl TryFrom<u8> for Operation {
    type Error = UnknownOperation;

    ghost try_from_gives = { Numbers };

    fn try_from(number: u8) -> Result<Self, UnknownOperation> {
        match number {
            1 => Ok(Operation::Encoders),
            2 => Ok(Operation::BitFlipping),
            3 => Ok(Operation::MinSum),
            4 => Ok(Operation::HardToLlrs),
            5 => Ok(Operation::LlrsToHard),
            6 => Ok(Operation::Sheet),
            _ => Err(UnknownOperation(number)),
        }
    }
}

// The head of a case: the number of its operation, the code, the limit, and what the Rust reported; of a sheet how long the text and the
// answer are. (A number: `read_len` and `written_len` take any, and what is no other operation's is measured as a sheet.)
#[derive(Clone, Copy, Debug, PartialEq, Eq)]
pub struct Case {
    pub op: u8,
    pub code: usize,
    pub limit: usize,
    pub ended: Ended,
    pub text: usize,
    pub answer: usize,
}

// The length of a head in the list.
pub const HEAD: usize = 5;

impl TryFrom<[u8; HEAD]> for Case {
    type Error = UnknownOperation;

    ghost try_from_gives = { Heads };

    fn try_from(bytes: [u8; HEAD]) -> Result<Self, UnknownOperation> {
        Operation::try_from(bytes[0])?;
        Ok(Case {
            op: bytes[0],
            code: usize::from(bytes[1]),
            limit: usize::from(bytes[2]),
            ended: Ended {
                success: bytes[3] == 1,
                iters: usize::from(bytes[4]),
            },
            text: usize::from(u16::from_le_bytes([bytes[1], bytes[2]])),
            answer: usize::from(u16::from_le_bytes([bytes[3], bytes[4]])),
        })
    }
}

// How many bytes its operation reads.
pub fn read_len(c: Case, row: CodeParams) -> usize
    ensures { result ≡ read_len c row }
{
    match Operation::try_from(c.op) {
        Ok(Operation::Encoders) => row.k / 8,
        Ok(Operation::BitFlipping | Operation::HardToLlrs) => row.n / 8,
        Ok(Operation::MinSum | Operation::LlrsToHard) => row.n,
        Ok(Operation::Sheet) => c.text,
        Err(_) => c.text,
    }
}

// How many bytes it writes.
pub fn written_len(c: Case, row: CodeParams) -> usize
    ensures { result ≡ written_len c row }
{
    match Operation::try_from(c.op) {
        Ok(Operation::Encoders | Operation::LlrsToHard) => row.n / 8,
        Ok(Operation::HardToLlrs) => row.n,
        Ok(Operation::BitFlipping | Operation::MinSum) => row.output_len,
        Ok(Operation::Sheet) => c.answer,
        Err(_) => c.answer,
    }
}

// Whether a decoder reports what the Rust did.
pub fn reported(r: Report, c: Case) -> bool
    ensures { Agrees result (r ≡ recorded c) }
{
    r == Report::from(c.ended)
}
