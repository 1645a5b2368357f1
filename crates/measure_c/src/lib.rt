// The doors for measuring, for the comparison to link: each function's promise is that of its namesake in measure.

#![tactic(auto)]

ghost use Rattle.std.specs.Prelude.{◌≡◌, length};
ghost use Rattle.runs.specs.Runs.{runs};
ghost use Rattle.measure.specs.Sum.{sum_of};

#[unsafe(no_mangle)]
pub extern "C" fn measure_walk(code: usize) -> usize
    ensures { result ≡ sum_of code }
{
    measure::measure_walk(code)
}

#[unsafe(no_mangle)]
pub extern "C" fn measure_runs(code: usize) -> usize
    ensures { result ≡ length (runs code) }
{
    measure::measure_runs(code)
}
