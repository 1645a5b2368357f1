// The library for C and Rust programs to link: include/labrador_ldpc.h says what each function does.
// A slice is a pointer and then a length there; each function's promise is that of its namesake in labrador_ldpc.

#![tactic(auto)]

ghost use Rattle.std.specs.Prelude.{◌≡◌, pos, negsuc};
ghost use Rattle.encoder.specs.Outcomes.{encoded, encode_outcome, copy_encode_outcome};
ghost use Rattle.bit_flip.specs.Outcome.{outcome};
ghost use Rattle.min_sum.specs.Confidence.{i8};
ghost use Rattle.min_sum.specs.Outcomes.{written, to_llrs_outcome, to_hard_outcome, decode_outcome};
ghost use Rattle.labrador_ldpc.specs.Doors.{row, params_outcome, hard, hard_door, soft, soft_door};

#[unsafe(no_mangle)]
pub extern "C" fn ldpc_params(code: usize, to: &mut [usize]) -> u8
    ensures { row result to.new ≡ params_outcome code to.old }
{
    labrador_ldpc::ldpc_params(code, to)
}

#[unsafe(no_mangle)]
pub extern "C" fn ldpc_encode(code: usize, codeword: &mut [u8]) -> u8
    ensures { encoded result codeword.new ≡ encode_outcome code codeword.old }
{
    labrador_ldpc::ldpc_encode(code, codeword)
}

#[unsafe(no_mangle)]
pub extern "C" fn ldpc_copy_encode(code: usize, data: &[u8], codeword: &mut [u8]) -> u8
    ensures { encoded result codeword.new ≡ copy_encode_outcome code «data».now codeword.old }
{
    labrador_ldpc::ldpc_copy_encode(code, data, codeword)
}

#[unsafe(no_mangle)]
pub extern "C" fn ldpc_hard_to_llrs_i8(code: usize, input: &[u8], llrs: &mut [i8]) -> u8
    ensures { written result llrs.new ≡ to_llrs_outcome (negsuc 0) (pos 1) code input.now llrs.old }
{
    labrador_ldpc::ldpc_hard_to_llrs_i8(code, input, llrs)
}

#[unsafe(no_mangle)]
pub extern "C" fn ldpc_llrs_to_hard_i8(code: usize, llrs: &[i8], output: &mut [u8]) -> u8
    ensures { written result output.new ≡ to_hard_outcome i8 code llrs.now output.old }
{
    labrador_ldpc::ldpc_llrs_to_hard_i8(code, llrs, output)
}

#[unsafe(no_mangle)]
pub extern "C" fn ldpc_decode_bf(
    code: usize,
    input: &[u8],
    output: &mut [u8],
    working: &mut [u8],
    limit: usize,
    success: &mut u8,
    iters: &mut usize,
) -> u8
    ensures { hard result success.new iters.new output.new working.new ≡ hard_door (outcome code input.now output.old working.old limit) }
{
    labrador_ldpc::ldpc_decode_bf(code, input, output, working, limit, success, iters)
}

#[unsafe(no_mangle)]
pub extern "C" fn ldpc_decode_ms_i8(
    code: usize,
    llrs: &[i8],
    output: &mut [u8],
    working: &mut [i8],
    working_u8: &mut [u8],
    limit: usize,
    success: &mut u8,
    iters: &mut usize,
) -> u8
    ensures { soft result success.new iters.new output.new working.new working_u8.new ≡ soft_door (decode_outcome i8 code llrs.now output.old working.old working_u8.old limit) }
{
    labrador_ldpc::ldpc_decode_ms_i8(
        code, llrs, output, working, working_u8, limit, success, iters,
    )
}
