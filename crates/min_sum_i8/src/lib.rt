// Min-sum decoding on confidences of 8 bits. (Rust: decode_ms of decoder.rs)

#![tactic(auto)]

ghost use mathlib.Core.List.{[], flat_map};
ghost use Rattle.std.specs.Prelude.{◌≡◌, ◌-◌, ◌*◌, length, replicate};
ghost use Rattle.runs.specs.Runs.{run_edges};
ghost use Rattle.report.specs.Report.{ending, report_of};
ghost use Rattle.min_sum.specs.Confidence.{i8};
ghost use Rattle.min_sum.specs.MinSum.{decoded};
ghost use Rattle.min_sum.specs.Outcomes.{left, finished_as, decode_outcome};
ghost use Rattle.min_sum.specs.Layouts.{layout_of, Sized, Ready, Lent};
ghost use Rattle.min_sum.specs.Working.{ran_over};

mod passes;

use codes::refusal::Refusal;
use codes::{FEW_CHECKS, MAX_CHECKS};
use confidence_i8::llrs::pack;
use messages_i8::Messages;
use min_sum::layout::{Layout, layout_of};
use min_sum::refusals::decode_refusal;
use passes::run_passes;
use report::Ended;
use runs::{EdgeRun, runs_of};

// The run of passes over these runs, from buffers of zeros: the working buffer is cleared first, and again at the end.
fn decode_runs(
    marks: &mut [u8],
    runs: &[EdgeRun],
    at: Layout,
    llrs: &[i8],
    output: &mut [u8],
    working: &mut [i8],
    limit: usize,
) -> Ended
    requires sized { Sized at (length working.old) (length marks.old) }
    requires none { marks.old ≡ replicate at.checks 0 }
    requires ready { Ready at runs.now (length llrs.now) }
    requires whole { 8 * length output.old ≡ at.bits }
    ensures { left (ending result.success result.iters) output.new working.new [] ≡ finished_as i8 (ran_over i8 (flat_map run_edges runs.now) at.checks (at.bits - length llrs.now) llrs.now limit) (length working.old) 0 }
{
    working.fill(0);
    let mut messages = Messages::new(working, marks, at, llrs, runs).unwrap();
    let found = run_passes(&mut messages, limit);
    pack(output, messages.marginals());
    working.fill(0);
    found
}

// The decoder over the runs of a code, with a byte of 0 for each check.
fn decode_code(
    code: usize,
    at: Layout,
    marks: &mut [u8],
    llrs: &[i8],
    output: &mut [u8],
    working: &mut [i8],
    limit: usize,
) -> Ended
    requires lent { Lent code (length llrs.now) (length output.old) (length working.old) }
    requires laid { at ≡ layout_of code }
    requires none { marks.old ≡ replicate at.checks 0 }
    ensures { left (ending result.success result.iters) output.new working.new [] ≡ finished_as i8 (decoded i8 code llrs.now limit) (length working.old) 0 }
{
    let runs = runs_of(code);
    decode_runs(marks, runs.as_slice(), at, llrs, output, working, limit)
}

// The decoder on buffers of the right lengths. A byte for each check is its own; the sign buffer is only cleared.
fn decode(
    code: usize,
    llrs: &[i8],
    output: &mut [u8],
    working: &mut [i8],
    working_u8: &mut [u8],
    limit: usize,
) -> Ended
    requires { Lent code (length llrs.now) (length output.old) (length working.old) }
    ensures { left (ending result.success result.iters) output.new working.new working_u8.new ≡ finished_as i8 (decoded i8 code llrs.now limit) (length working.old) (length working_u8.old) }
{
    let at = layout_of(code);
    let checks = at.checks;
    working_u8.fill(0);
    if checks <= FEW_CHECKS {
        let mut few = [0u8; FEW_CHECKS];
        return decode_code(code, at, &mut few[..checks], llrs, output, working, limit);
    }
    let mut marks = [0u8; MAX_CHECKS];
    decode_code(code, at, &mut marks[..checks], llrs, output, working, limit)
}

// Min-sum on confidences of 8 bits, at most limit passes: slower than bit flipping, with more memory, and better where the receiver knows
// how sure it is of a bit. A confidence is above 0 for a bit 0 and below 0 for a bit 1; the larger its size, the surer the bit, on a logarithmic scale.
//
// Until a sum is cut only their ratios matter, so any scale will do; but messages are added up in 8 bits too, and what passes 127 or -128 stays
// there. Leave room for some of them: with confidences of -32 to 31 several can be added before a sum is cut. Bits without confidences do with 1 and -1,
// as hard_to_llrs_i8 gives them.
pub fn decode_ms_i8(
    code: usize,
    llrs: &[i8],
    output: &mut [u8],
    working: &mut [i8],
    working_u8: &mut [u8],
    limit: usize,
) -> Result<Ended, Refusal>
    ensures { left (report_of result) output.new working.new working_u8.new ≡ decode_outcome i8 code llrs.now output.old working.old working_u8.old limit }
{
    decode_refusal(
        code,
        llrs.len(),
        output.len(),
        working.len(),
        working_u8.len(),
    )?;
    Ok(decode(code, llrs, output, working, working_u8, limit))
}
