// The erasure pass. An erased bit's byte is 2.
ghost use Rattle.std.specs.Prelude.{◌≡◌, Bool, List, ℕ, ◌-◌, ◌≤◌, length};
ghost use Rattle.runs.specs.Runs.{laid};
ghost use Rattle.bit_flip.specs.Erasures.{voted, filled, erasure_passes, from_on};
ghost use Rattle.bit_flip.specs.Steps.{set_from, Bits, Marked};

use crate::few::FewRuns;
use scores::give_runs;
use scores::votes::{cast_votes, settle_bytes};

// Each erased bit by the votes of the checks that have no other erased bit.
fn vote(runs: &FewRuns, bits: &mut [u8], checks: &mut [u8])
    ensures { (erased : ℕ → Bool) (w : List ℕ) → Marked erased w bits.old → bits.new ≡ voted erased (laid (length checks.old) (length bits.old) runs.now) w }
{
    cast_votes(runs.list, bits, checks);
    give_runs(runs.list, checks, bits);
    settle_bytes(bits);
}

// The bytes from a place on, all the same.
pub(crate) fn set_from(bits: &mut [u8], from: usize, value: u8)
    requires { from ≤ length bits.old }
    ensures { bits.new ≡ set_from from value bits.old }
{
    bits[from..].fill(value);
}

// The bits from n on by one pass, where there are any and there is an iteration to spend; it counts none.
pub(crate) fn decode_erasures(
    runs: &FewRuns,
    n: usize,
    bits: &mut [u8],
    checks: &mut [u8],
    limit: usize,
)
    requires { Bits bits.old }
    ensures { filled bits.new 0 ≡ erasure_passes (from_on n (length bits.old)) (laid (length checks.old) (length bits.old) runs.now) (length bits.old - n) limit bits.old }
{
    if n < bits.len() && limit > 0 {
        set_from(bits, n, 2);
        vote(runs, bits, checks);
    }
}
