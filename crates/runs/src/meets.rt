// Whether a word meets every parity equation of a code.
ghost use Rattle.std.specs.Prelude.{◌≡◌, length};
ghost use Rattle.maths.specs.Bits.{bit_at};
ghost use Rattle.bits.specs.Packed.{unpacked};
ghost use Rattle.runs.specs.Runs.{laid};
ghost use Rattle.codes.specs.Equations.{word_of};
ghost use Rattle.runs.specs.Meets.{syndrome_of, none_broken, meets_test, met_by, met_of, Accepted};
ghost use Rattle.runs.specs.Steps.{add2};

use crate::steps::{Step, put_at_checks};
use crate::{EdgeRun, runs_of};
use codes::refusal::{Refusal, check_length};
use codes::{CodeParams, MAX_BITS, MAX_CHECKS, params};

struct AddMod2;

impl Step for AddMod2 {
    ghost op = { add2 };

    fn step(x: u8, y: u8) -> u8 {
        x.wrapping_add(y) % 2
    }
}

// 1 for each check that is broken, 0 for the others, by the runs of the list that lie within.
pub fn syndrome(runs: &[EdgeRun], bits: &[u8], checks: &mut [u8])
    ensures { checks.new ≡ syndrome_of (laid (length checks.old) (length bits.now) runs.now) (length checks.old) (word_of bits.now) }
{
    checks.fill(0);
    put_at_checks::<AddMod2>(runs, bits, checks);
}

// Whether no check is broken, by the runs of a list.
fn all_met(word: &[u8], runs: &[EdgeRun], bits: &mut [u8], checks: &mut [u8]) -> bool
    ensures { result ≡ none_broken (laid (length checks.old) (length bits.old) runs.now) (length checks.old) (word_of (unpacked word.now bits.old)) }
{
    bits::unpack(word, bits);
    syndrome(runs, bits, checks);
    bits::largest(checks) == 0
}

// Whether the word, which has the length of the code's words, meets every equation.
fn word_meets(code: usize, row: CodeParams, word: &[u8]) -> bool
    requires { Accepted code row (length word.now) }
    ensures { result ≡ meets_test code (bit_at word.now) }
{
    let n = row.n + row.punctured_bits;
    let m = n - row.k;
    let mut bits = [0u8; MAX_BITS];
    let mut checks = [0u8; MAX_CHECKS];
    let runs = runs_of(code);
    all_met(word, runs.as_slice(), &mut bits[..n], &mut checks[..m])
}

// Whether a word of (n+p)/8 bytes meets every equation of a code.
pub fn meets(code: usize, word: &[u8]) -> Result<bool, Refusal>
    ensures { met_by result ≡ met_of code word.now }
{
    let row = params(code)?;
    check_length(word.len(), row.output_len, Refusal::WrongRead)?;
    Ok(word_meets(code, row, word))
}
