// The messages of min-sum on confidences of 8 bits: what an edge reads and stores, over runs of edges. (Rust: the two loops of decode_ms)

#![tactic(auto, using(min_sum::proofs::Signed::numbers), unfolding(min_sum::specs::Working::add_at, min_sum::specs::Working::take_at, min_sum::specs::Working::renew_parts))]

ghost use Rattle.std.specs.Prelude.{◌≡◌, ◌+◌, ◌-◌, ◌≤◌, ◌++◌, pos, length, replicate};
ghost use Rattle.maths.specs.Lists.{fold};
ghost use Rattle.maths.specs.Tests.{pick};
ghost use Rattle.maths.specs.Budget.{stop, go};
ghost use Rattle.min_sum.specs.Confidence.{i8};
ghost use Rattle.min_sum.specs.MinSum.{Link};
ghost use Rattle.min_sum.specs.Layouts.{Inside};
ghost use Rattle.min_sum.specs.Working.{Alike, layout, link_at, run_links, over_edges, held, turn_in, exchange, exchanged, add_at, take_at};

mod anywhere;

pub use anywhere::exchange;
use confidence_i8::parts::copy;
use confidence_i8::{TOP, add, new_first, new_mark, new_second, new_u, new_v};
use min_sum::layout::Layout;
use min_sum::marks::{all_even, negative};
use runs::EdgeRun;
use std::marker::Model;

// What a decode works with: the LLRs, the runs of edges, the messages, and a byte for each check. u and v have an element for each edge, the
// marginals one for each bit, the minima and the bytes one for each check.
#[derive(Drop)]
pub struct Messages<'a> {
    llrs: &'a [i8],
    runs: &'a [EdgeRun],
    u: &'a mut [i8],
    v: &'a mut [i8],
    marginals: &'a mut [i8],
    first: &'a mut [i8],
    second: &'a mut [i8],
    marks: &'a mut [u8],
}

impl<'a> Model for Messages<'a> {
    ghost use Rattle.std.specs.Prelude.{ℤ};
    ghost use Rattle.min_sum.specs.Working.{Parts};

    ghost Value = { Parts ℤ };

    ghost use Rattle.messages_i8.specs.Messages.{parts_of, Fitting};

    ghost view = { parts_of };

    ghost invariant = { Fitting };
}

// What is done at every edge.
trait Step {
    ghost use Rattle.std.specs.Prelude.{ℤ};
    ghost use Rattle.min_sum.specs.Working.{Parts, Keeps};

    ghost after: { Link → Parts ℤ → Parts ℤ };

    ghost keeps: { Keeps after };

    // At edge i of a run whose first has the number e.
    fn at(m: &mut Messages<'_>, e: usize, run: EdgeRun, i: usize)
        requires { Inside (layout m.old) (e + i) (run.check.0 + i) (run.bit.0 + i) 1 }
        ensures { m.new ≡ after (link_at e run.check.0 run.bit.0 i) m.old };
}

// The edge's new u, and its bit's marginal with u added.
struct Add;

impl Step for Add {
    ghost use Rattle.min_sum.proofs.Held.{add_keeps};

    ghost after = { add_at i8 };

    ghost keeps = { add_keeps i8 };

    fn at(m: &mut Messages<'_>, e: usize, run: EdgeRun, i: usize) {
        let Messages {
            u,
            v,
            marginals,
            first,
            second,
            marks,
            ..
        } = m;
        let a = usize::from(run.check.0) + i;
        let bit = usize::from(run.bit.0) + i;
        let marginal = marginals[bit];
        let new = new_u(v[e + i], first[a], second[a], negative(marks[a]));
        u[e + i] = new;
        marginals[bit] = add(marginal, new);
    }
}

// The edge's new v, and the minima, the sign and the parity of its check.
struct Take;

impl Step for Take {
    ghost use Rattle.min_sum.proofs.Held.{take_keeps};

    ghost after = { take_at i8 };

    ghost keeps = { take_keeps i8 };

    fn at(m: &mut Messages<'_>, e: usize, run: EdgeRun, i: usize) {
        let Messages {
            u,
            v,
            marginals,
            first,
            second,
            marks,
            ..
        } = m;
        let a = usize::from(run.check.0) + i;
        let marginal = marginals[usize::from(run.bit.0) + i];
        let least = first[a];
        let next = second[a];
        let mark = marks[a];
        let new = new_v(marginal, u[e + i], v[e + i]);
        v[e + i] = new;
        first[a] = new_first(new, least);
        second[a] = new_second(new, least, next);
        marks[a] = mark ^ new_mark(new, marginal);
    }
}

// The marginals restart as the LLRs, 0 for bits that are not sent.
fn restart(marginals: &mut [i8], llrs: &[i8])
    requires { length llrs.now ≤ length marginals.old }
    ensures { marginals.new ≡ llrs.now ++ replicate (length marginals.old - length llrs.now) (pos 0) }
{
    let (sent, punctured) = marginals.split_at_mut(llrs.len());
    copy(sent, 0, llrs);
    punctured.fill(0);
}

impl<'a> Messages<'a> {
    ghost use Rattle.min_sum.specs.Working.{all_even, restart_parts, renew_parts, lent_as};

    // The messages in a buffer, part after part, where there is room for the layout and the runs are its edges. Of the layout it takes how many
    // elements the parts have, not where they begin: they follow one another, as in layout_of's.
    pub fn new(
        working: &'a mut [i8],
        marks: &'a mut [u8],
        at: Layout,
        llrs: &'a [i8],
        runs: &'a [EdgeRun],
    ) -> Option<Messages<'a>>
        ensures { result ≡ lent_as at llrs.now runs.now working.old marks.old }
    {
        let (u, rest) = working.split_at_mut_checked(at.edges)?;
        let (v, rest) = rest.split_at_mut_checked(at.edges)?;
        let (marginals, rest) = rest.split_at_mut_checked(at.bits)?;
        let (first, rest) = rest.split_at_mut_checked(at.checks)?;
        let (second, _) = rest.split_at_mut_checked(at.checks)?;
        let (marks, _) = marks.split_at_mut_checked(at.checks)?;
        if llrs.len() > at.bits {
            return None;
        }
        if !at.is_made_of(runs) {
            return None;
        }
        Some(Messages {
            llrs,
            runs,
            u,
            v,
            marginals,
            first,
            second,
            marks,
        })
    }

    pub fn marginals(&self) -> &[i8]
        ensures { result.now ≡ self.now.marginals }
    {
        self.marginals
    }

    // A run of edges: (check + i, bit + i), numbered e + i.
    fn over_run<S: Step>(&mut self, e: usize, run: EdgeRun)
        requires { Inside (layout self.old) e run.check.0 run.bit.0 run.size }
        ensures { self.new ≡ fold S.after (run_links e run.check.0 run.bit.0 run.size) self.old }
    {
        // By an index: a step reads and writes six slices at three offsets.
        for i in 0..usize::from(run.size) {
            S::at(self, e, run, i);
        }
    }

    // All edges, run by run.
    fn over_runs<S: Step>(&mut self)
        ensures { self.new ≡ over_edges S.after self.old }
    {
        let runs = self.runs;
        // Where a run's edges begin is a sum over the runs before it, and no index of one.
        let mut e = 0;
        for run in runs {
            self.over_run::<S>(e, *run);
            e += usize::from(run.size);
        }
    }

    // The minima restart at the largest number, the signs at plus, the parities at even.
    fn renew(&mut self)
        ensures { self.new ≡ renew_parts i8 self.old }
    {
        self.first.fill(TOP);
        self.second.fill(TOP);
        self.marks.fill(0);
    }

    fn is_even(&self) -> bool
        ensures { result ≡ all_even self.now.marks }
    {
        all_even(self.marks)
    }

    // Every edge adds its message, and then takes the next. Whether every check is even then.
    fn exchange(&mut self) -> bool
        ensures { exchange result self.new ≡ exchanged i8 self.old }
    {
        self.over_runs::<Add>();
        self.renew();
        self.over_runs::<Take>();
        self.is_even()
    }

    // One pass: whether the hard bits of the marginals meet every equation then.
    pub fn pass(&mut self) -> bool
        ensures passed { exchange result self.new ≡ exchanged i8 (restart_parts i8 self.old) }
        ensures turn { pick result (stop (held self.new)) (go (held self.new)) ≡ turn_in i8 self.old (held self.old) }
        ensures alike { Alike self.old self.new }
    {
        restart(self.marginals, self.llrs);
        self.exchange()
    }
}
