// For measuring: the walk edge by edge, and the list of runs, which the library's own interface does not show. measure_c exports both.

#![tactic(auto)]

ghost use Rattle.std.specs.Prelude.{◌≡◌, ◌+◌, ◌%◌, length};
ghost use Rattle.runs.specs.Runs.{runs};
ghost use Rattle.measure.specs.Sum.{sum_of};

use codes::parity_iter::iter_paritychecks;
use runs::runs_of;

// Small enough that no sum wraps.
fn folded(sum: usize, check: usize, bit: usize) -> usize
    ensures { result ≡ (sum % 65536 + check % 65536 + bit % 65536) % 65536 }
{
    (sum % 65536 + check % 65536 + bit % 65536) % 65536
}

// The sum of the numbers of all edges of a code, by stepping the walk.
pub fn measure_walk(code: usize) -> usize
    ensures { result ≡ sum_of code }
{
    let mut sum = 0;
    if let Ok(walk) = iter_paritychecks(code) {
        for (check, bit) in walk {
            sum = folded(sum, check.0, bit.0);
        }
    }
    sum
}

// How many runs a code has, by filling their list.
pub fn measure_runs(code: usize) -> usize
    ensures { result ≡ length (runs code) }
{
    runs_of(code).as_slice().len()
}
