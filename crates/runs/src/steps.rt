// The loops over the edges of runs, for any step.
ghost use Rattle.std.specs.Prelude.{◌≡◌, ℕ, length};
ghost use Rattle.maths.specs.Lists.{fold};
ghost use Rattle.runs.specs.Runs.{run, laid};
ghost use Rattle.codes.specs.Equations.{check_of, bit_of, word_of};
ghost use Rattle.runs.specs.Steps.{put, over_run};

use crate::EdgeRun;

// What stands at one end of an edge becomes the step of that and of what stands at the other end.
pub trait Step {
    ghost op: { ℕ → ℕ → ℕ };

    fn step(x: u8, y: u8) -> u8
        ensures { result ≡ op x y };
}

// A step at one end of each edge of a run, from the place near on, by the other end, from the place far on; a run that does not lie within is
// passed over. (Plain numbers, since near may be a check or a bit: the callers say which.)
fn put_run<S: Step>(from: &[u8], to: &mut [u8], near: u16, far: u16, size: u16)
    ensures { to.new ≡ over_run (length to.old) (length from.now) (put check_of bit_of S.op (word_of from.now)) (run near far size) to.old }
{
    let x = usize::from(near);
    let y = usize::from(far);
    let lies_within = x + usize::from(size) <= to.len() && y + usize::from(size) <= from.len();
    if !lies_within {
        return;
    }
    // By an index, for both ends: an iterator over one of them leaves it for the other, and was no faster.
    for i in 0..usize::from(size) {
        to[x + i] = S::step(to[x + i], from[y + i]);
    }
}

// A step at the check of each edge, by the runs of a list that lie within.
pub fn put_at_checks<S: Step>(runs: &[EdgeRun], bits: &[u8], checks: &mut [u8])
    ensures { checks.new ≡ fold (put check_of bit_of S.op (word_of bits.now)) (laid (length checks.old) (length bits.now) runs.now) checks.old }
{
    for run in runs {
        put_run::<S>(bits, checks, run.check.0, run.bit.0, run.size);
    }
}

// And one at the bit of each edge. (Apart from the other: which end is written and which is read stands in the signature.)
pub fn put_at_bits<S: Step>(runs: &[EdgeRun], checks: &[u8], bits: &mut [u8])
    ensures { bits.new ≡ fold (put bit_of check_of S.op (word_of checks.now)) (laid (length checks.now) (length bits.old) runs.now) bits.old }
{
    for run in runs {
        put_run::<S>(checks, bits, run.bit.0, run.check.0, run.size);
    }
}
