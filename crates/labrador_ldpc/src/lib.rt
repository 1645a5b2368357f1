// The functions of the library for C and Rust programs to link: include/labrador_ldpc.h says what each does, and labrador_ldpc_c exports
// them under these names. Each function's promise is that of the library's own function; C has numbers for refusals, and places for results.

#![tactic(auto)]

ghost use Rattle.std.specs.Prelude.{◌≡◌, pos, negsuc};
ghost use Rattle.encoder.specs.Outcomes.{encoded, encode_outcome, copy_encode_outcome};
ghost use Rattle.report.specs.Report.{flag};
ghost use Rattle.bit_flip.specs.Outcome.{outcome};
ghost use Rattle.min_sum.specs.Confidence.{i8};
ghost use Rattle.min_sum.specs.Outcomes.{written, to_llrs_outcome, to_hard_outcome, decode_outcome};
ghost use Rattle.labrador_ldpc.specs.Doors.{row, params_outcome, hard, hard_door, soft, soft_door};

use codes::params;
use codes::refusal::{Refusal, answer};
use report::Report;

pub fn ldpc_params(code: usize, to: &mut [usize]) -> u8
    ensures { row result to.new ≡ params_outcome code to.old }
{
    let asked = params(code);
    if to.len() == 10 {
        to.copy_from_slice(&asked.unwrap_or_default().numbers());
        return answer(asked);
    }
    answer(asked.and(Err::<(), Refusal>(Refusal::WrongWritten)))
}

pub fn ldpc_encode(code: usize, codeword: &mut [u8]) -> u8
    ensures { encoded result codeword.new ≡ encode_outcome code codeword.old }
{
    answer(encoder::encode(code, codeword))
}

pub fn ldpc_copy_encode(code: usize, data: &[u8], codeword: &mut [u8]) -> u8
    ensures { encoded result codeword.new ≡ copy_encode_outcome code «data».now codeword.old }
{
    answer(encoder::copy_encode(code, data, codeword))
}

pub fn ldpc_hard_to_llrs_i8(code: usize, input: &[u8], llrs: &mut [i8]) -> u8
    ensures { written result llrs.new ≡ to_llrs_outcome (negsuc 0) (pos 1) code input.now llrs.old }
{
    answer(confidence_i8::llrs::hard_to_llrs_i8(code, input, llrs))
}

pub fn ldpc_llrs_to_hard_i8(code: usize, llrs: &[i8], output: &mut [u8]) -> u8
    ensures { written result output.new ≡ to_hard_outcome i8 code llrs.now output.old }
{
    answer(confidence_i8::llrs::llrs_to_hard_i8(code, llrs, output))
}

// A decoder's report, in the places that C lends; the answer is its number.
fn told(r: Report, success: &mut u8, iters: &mut usize) -> u8
    ensures answers { result ≡ r.answer }
    ensures says { success.new ≡ flag r.success }
    ensures counts { iters.new ≡ r.iters }
{
    *success = u8::from(r.success);
    *iters = r.iters;
    r.answer
}

pub fn ldpc_decode_bf(
    code: usize,
    input: &[u8],
    output: &mut [u8],
    working: &mut [u8],
    limit: usize,
    success: &mut u8,
    iters: &mut usize,
) -> u8
    ensures { hard result success.new iters.new output.new working.new ≡ hard_door (outcome code input.now output.old working.old limit) }
{
    let r = bit_flip::decode_bf(code, input, output, working, limit);
    told(Report::from(r), success, iters)
}

pub fn ldpc_decode_ms_i8(
    code: usize,
    llrs: &[i8],
    output: &mut [u8],
    working: &mut [i8],
    working_u8: &mut [u8],
    limit: usize,
    success: &mut u8,
    iters: &mut usize,
) -> u8
    ensures { soft result success.new iters.new output.new working.new working_u8.new ≡ soft_door (decode_outcome i8 code llrs.now output.old working.old working_u8.old limit) }
{
    let r = min_sum_i8::decode_ms_i8(code, llrs, output, working, working_u8, limit);
    told(Report::from(r), success, iters)
}
