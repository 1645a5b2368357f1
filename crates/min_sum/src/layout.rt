// How the working buffer is laid out, and the runs that are its edges.
ghost use Rattle.std.specs.Prelude.{◌≡◌, ◌+◌, ◌≤◌, leb, sum_by, length};
ghost use Rattle.std.specs.List.{list_all};
ghost use Rattle.runs.specs.declared.EdgeRun.{EdgeRun};
ghost use Rattle.runs.specs.Runs.{within, room};
ghost use Rattle.min_sum.specs.Layouts.{layout_of, make_up};
ghost use Rattle.min_sum.specs.Anywhere.{lies_in, ready_for};

use codes::params;
use runs::{EdgeRun, MAX_RUNS};

// First u and then v, an element for each edge; the marginals, one for each bit; the first minima and then the second, one for each check.
// How many there are of each, and where the last three begin.
#[derive(Clone, Copy, Debug, PartialEq, Eq)]
pub struct Layout {
    pub edges: usize,
    pub bits: usize,
    pub checks: usize,
    pub marginals: usize,
    pub first: usize,
    pub second: usize,
}

// The layout of a code's working buffer; one without room where the code is not known.
pub fn layout_of(code: usize) -> Layout
    ensures { result ≡ layout_of code }
{
    let row = params(code).unwrap_or_default();
    let edges = row.paritycheck_sum as usize; // a u32 as in the Rust
    let bits = row.n + row.punctured_bits;
    let checks = bits - row.k;
    let marginals = 2 * edges;
    let first = marginals + bits;
    Layout {
        edges,
        bits,
        checks,
        marginals,
        first,
        second: first + checks,
    }
}

// A buffer of so many elements has n of them from a place on.
pub fn has_room(len: usize, from: usize, n: usize) -> bool
    ensures { result ≡ leb (from + n) len }
{
    n <= len && from <= len - n
}

// Whether the parts of a layout lie within so many numbers, and its checks within so many bytes.
#[tactic(auto, unfolding(crate::specs::Anywhere::lies_in))]
fn lies_in(at: Layout, numbers: usize, bytes: usize) -> bool
    ensures { result ≡ lies_in at numbers bytes }
{
    has_room(numbers, at.edges, at.edges)
        && has_room(numbers, at.marginals, at.bits)
        && has_room(numbers, at.first, at.checks)
        && has_room(numbers, at.second, at.checks)
        && at.checks <= bytes
}

fn all_within(runs: &[EdgeRun], checks: usize, bits: usize) -> bool
    ensures { result ≡ list_all (within checks bits) runs.now }
{
    runs.iter().all(|run| run.lies_within(checks, bits))
}

fn count_edges(runs: &[EdgeRun]) -> usize
    requires { length runs.now ≤ room }
    ensures { result ≡ sum_by (λ (r : EdgeRun). r.size) runs.now }
{
    runs.iter().map(|run| usize::from(run.size)).sum()
}

impl Layout {
    // Whether runs, not more than any code has, lie within the layout and are all its edges.
    pub fn is_made_of(self, runs: &[EdgeRun]) -> bool
        ensures { result ≡ make_up self runs.now }
    {
        if runs.len() > MAX_RUNS {
            return false;
        }
        if !all_within(runs, self.checks, self.bits) {
            return false;
        }
        count_edges(runs) == self.edges
    }
}

// Whether the messages over these runs can be exchanged in buffers of so many numbers and bytes.
#[tactic(auto, unfolding(crate::specs::Anywhere::ready_for))]
pub fn is_ready(at: Layout, numbers: usize, bytes: usize, runs: &[EdgeRun]) -> bool
    ensures { result ≡ ready_for at numbers bytes runs.now }
{
    lies_in(at, numbers, bytes) && at.is_made_of(runs)
}
