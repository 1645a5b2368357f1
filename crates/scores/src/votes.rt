// The votes of checks for their erased bits, and the bits by their votes. An erased bit's byte is 2.
ghost use Rattle.std.specs.Prelude.{◌≡◌, map, length};
ghost use Rattle.runs.specs.Runs.{laid};
ghost use Rattle.scores.specs.Votes.{add_erased, vote_byte, cast_votes, settle_byte};

use runs::EdgeRun;
use runs::meets::syndrome;
use runs::steps::{Step, put_at_checks};

struct AddErased;

// Parity and erased bits of a check, with one bit more. At 4 there is no vote whatever follows.
impl Step for AddErased {
    ghost op = { add_erased };

    fn step(x: u8, y: u8) -> u8 {
        x.wrapping_add(y / 2 * 2).min(4)
    }
}

#[tactic(auto, unfolding(crate::specs::Votes::vote_byte))]
fn vote_byte(x: u8) -> u8
    ensures { result ≡ vote_byte x }
{
    match x {
        3 => 2,
        2 => 254,
        _ => 0,
    }
}

// (A loop of one line: see flip_bytes.)
fn vote_bytes(checks: &mut [u8])
    ensures { checks.new ≡ map vote_byte checks.old }
{
    for x in checks.iter_mut() {
        *x = vote_byte(*x);
    }
}

#[tactic(auto, unfolding(crate::specs::Votes::settle_byte))]
fn settle_byte(x: u8) -> u8
    ensures { result ≡ settle_byte x }
{
    if x % 4 < 2 {
        return x % 2;
    }
    let votes = x / 4;
    u8::from(votes > 0 && votes < 32)
}

// (A loop of one line: see flip_bytes.)
pub fn settle_bytes(bits: &mut [u8])
    ensures { bits.new ≡ map settle_byte bits.old }
{
    for x in bits.iter_mut() {
        *x = settle_byte(*x);
    }
}

// What each check gives to its bits: a vote where exactly one of them is erased.
pub fn cast_votes(runs: &[EdgeRun], bits: &[u8], checks: &mut [u8])
    ensures { checks.new ≡ cast_votes (laid (length checks.old) (length bits.now) runs.now) (length checks.old) bits.now }
{
    syndrome(runs, bits, checks);
    put_at_checks::<AddErased>(runs, bits, checks);
    vote_bytes(checks);
}
