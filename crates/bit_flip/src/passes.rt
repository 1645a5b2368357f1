// The main passes, over bytes as the crate scores has them. That they are bits is asked by each function and kept by no type, since within a
// pass the same bytes hold scores.
ghost use Rattle.std.specs.Prelude.{◌≡◌, length};
ghost use Rattle.maths.specs.Tests.{pick};
ghost use Rattle.maths.specs.Budget.{stop, go, end};
ghost use Rattle.runs.specs.Runs.{laid};
ghost use Rattle.codes.specs.Equations.{word_of};
ghost use Rattle.runs.specs.Meets.{syndrome_of};
ghost use Rattle.bit_flip.specs.Flip.{flipped, turn, passes};
ghost use Rattle.bit_flip.specs.Steps.{Bits};

use crate::few::FewRuns;
use report::Ended;
use runs::meets::syndrome;
use scores::{flip_bytes, give_runs};

// Every bit with the largest score is flipped; the checks are those that are broken.
fn flip_pass(runs: &FewRuns, checks: &[u8], bits: &mut [u8])
    requires { (Bits bits.old) × (checks.now ≡ syndrome_of (laid (length checks.now) (length bits.old) runs.now) (length checks.now) (word_of bits.old)) }
    ensures { bits.new ≡ flipped (laid (length checks.now) (length bits.old) runs.now) bits.old }
{
    give_runs(runs.list, checks, bits);
    let top = bits::largest(bits) / 2;
    flip_bytes(bits, top);
}

// One pass: whether no check is broken. Where one is, bits are flipped.
fn one_pass(runs: &FewRuns, bits: &mut [u8], checks: &mut [u8]) -> bool
    requires { Bits bits.old }
    ensures { pick result (stop bits.new) (go bits.new) ≡ turn (laid (length checks.old) (length bits.old) runs.now) (length checks.old) bits.old }
{
    syndrome(runs.list, bits, checks);
    if bits::largest(checks) == 0 {
        return true;
    }
    flip_pass(runs, checks, bits);
    false
}

// (As min_sum_i8's, but for the pass: see there.)
pub(crate) fn run_passes(runs: &FewRuns, bits: &mut [u8], checks: &mut [u8], limit: usize) -> Ended
    requires { Bits bits.old }
    ensures { end result.success result.iters bits.new ≡ passes (laid (length checks.old) (length bits.old) runs.now) (length checks.old) limit bits.old }
{
    for pass in 0..limit {
        if one_pass(runs, bits, checks) {
            return Ended {
                success: true,
                iters: pass,
            };
        }
    }
    Ended {
        success: false,
        iters: limit,
    }
}
