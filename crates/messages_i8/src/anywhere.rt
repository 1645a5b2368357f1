// The exchange of messages in buffers that are laid out in any way. Every place is an index into a whole buffer: parts that are laid out in any
// way may lie on one another, so no slice can be lent for each, as Messages has them.

#![tactic(auto, using(min_sum::proofs::Signed::numbers), unfolding(min_sum::specs::Anywhere::add_at, min_sum::specs::Anywhere::take_at))]

ghost use Rattle.std.specs.Prelude.{◌≡◌, ◌+◌, length};
ghost use mathlib.Core.List.{flat_map};
ghost use Rattle.maths.specs.Lists.{fold};
ghost use Rattle.runs.specs.Runs.{run_edges};
ghost use Rattle.min_sum.specs.Confidence.{i8};
ghost use Rattle.min_sum.specs.MinSum.{Link, numbered};
ghost use Rattle.min_sum.specs.Layouts.{Inside, Rest};
ghost use Rattle.min_sum.specs.Working.{link_at, run_links};
ghost use Rattle.min_sum.specs.Anywhere.{Room, buffers, exchange, add_step, take_at, taken_all, exchanged};

use confidence_i8::parts::fill;
use confidence_i8::{TOP, add, new_first, new_mark, new_second, new_u, new_v};
use min_sum::layout::{Layout, is_ready};
use min_sum::marks::{all_even, negative};
use runs::EdgeRun;

// What is done at every edge.
trait StepAt {
    ghost use Rattle.std.specs.Prelude.{ℤ};
    ghost use Rattle.min_sum.specs.declared.layout.Layout.{Layout};
    ghost use Rattle.min_sum.specs.Anywhere.{Buffers, Keeps};

    ghost after: { Layout → Link → Buffers ℤ → Buffers ℤ };

    ghost keeps: { (l : Layout) → Keeps (after l) };

    // At edge i of a run whose first has the number e.
    fn step(w: &mut [i8], marks: &mut [u8], at: Layout, e: usize, run: EdgeRun, i: usize)
        requires room { Room at (length w.old) (length marks.old) }
        requires inside { Inside at (e + i) (run.check.0 + i) (run.bit.0 + i) 1 }
        ensures { buffers w.new marks.new ≡ after at (link_at e run.check.0 run.bit.0 i) (buffers w.old marks.old) };
}

// The edge's new u, and its bit's marginal with u added.
struct AddAt;

impl StepAt for AddAt {
    ghost use Rattle.min_sum.proofs.Anywhere.{add_keeps};

    ghost after = { add_step i8 };

    ghost keeps = { add_keeps i8 };

    fn step(w: &mut [i8], marks: &mut [u8], at: Layout, e: usize, run: EdgeRun, i: usize) {
        let a = usize::from(run.check.0) + i;
        let sum = at.marginals + usize::from(run.bit.0) + i;
        let marginal = w[sum];
        let v = w[at.edges + e + i];
        let new = new_u(v, w[at.first + a], w[at.second + a], negative(marks[a]));
        w[e + i] = new;
        w[sum] = add(marginal, new);
    }
}

// The edge's new v, and the minima, the sign and the parity of its check.
struct TakeAt;

impl StepAt for TakeAt {
    ghost use Rattle.min_sum.proofs.Anywhere.{take_keeps};

    ghost after = { take_at i8 };

    ghost keeps = { take_keeps i8 };

    fn step(w: &mut [i8], marks: &mut [u8], at: Layout, e: usize, run: EdgeRun, i: usize) {
        let a = usize::from(run.check.0) + i;
        let old = at.edges + e + i;
        let least = at.first + a;
        let next = at.second + a;
        let marginal = w[at.marginals + usize::from(run.bit.0) + i];
        let first = w[least];
        let second = w[next];
        let new = new_v(marginal, w[e + i], w[old]);
        w[old] = new;
        w[least] = new_first(new, first);
        w[next] = new_second(new, first, second);
        marks[a] = marks[a] ^ new_mark(new, marginal);
    }
}

// A run of edges: (check + i, bit + i), numbered e + i.
fn over_run<S: StepAt>(w: &mut [i8], marks: &mut [u8], at: Layout, e: usize, run: EdgeRun)
    requires room { Room at (length w.old) (length marks.old) }
    requires inside { Inside at e run.check.0 run.bit.0 run.size }
    ensures { buffers w.new marks.new ≡ fold (S.after at) (run_links e run.check.0 run.bit.0 run.size) (buffers w.old marks.old) }
{
    for i in 0..usize::from(run.size) {
        S::step(w, marks, at, e, run, i);
    }
}

// All edges, run by run.
fn over_runs<S: StepAt>(w: &mut [i8], marks: &mut [u8], at: Layout, runs: &[EdgeRun])
    requires room { Room at (length w.old) (length marks.old) }
    requires rest { Rest at 0 runs.now }
    ensures { buffers w.new marks.new ≡ fold (S.after at) (numbered 0 (flat_map run_edges runs.now)) (buffers w.old marks.old) }
{
    // Where a run's edges begin is a sum over the runs before it, and no index of one.
    let mut e = 0;
    for run in runs {
        over_run::<S>(w, marks, at, e, *run);
        e += usize::from(run.size);
    }
}

// The second half of an exchange: the minima restart at the largest number, the signs at plus, and every edge takes its message.
fn take_all(w: &mut [i8], marks: &mut [u8], at: Layout, runs: &[EdgeRun]) -> bool
    requires room { Room at (length w.old) (length marks.old) }
    requires rest { Rest at 0 runs.now }
    ensures { exchange result (buffers w.new marks.new) ≡ taken_all i8 at runs.now (buffers w.old marks.old) }
{
    fill(w, at.first, 2 * at.checks, TOP);
    marks.fill(0); // plus, and even
    over_runs::<TakeAt>(w, marks, at, runs);
    all_even(marks)
}

// The messages of a pass, from marginals that have restarted: every edge adds its own, and then takes the next. Whether every check is even
// then. Where the layout does not lie within the buffers, or the runs are not its edges, nothing is done.
pub fn exchange(w: &mut [i8], marks: &mut [u8], at: Layout, runs: &[EdgeRun]) -> bool
    ensures { exchange result (buffers w.new marks.new) ≡ exchanged i8 at runs.now (buffers w.old marks.old) }
{
    if !is_ready(at, w.len(), marks.len(), runs) {
        return false;
    }
    over_runs::<AddAt>(w, marks, at, runs);
    take_all(w, marks, at, runs)
}
