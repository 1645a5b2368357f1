// The first test that a call fails, by the lengths of its buffers.
ghost use Rattle.std.specs.Prelude.{◌≡◌, ◌/◌};
ghost use Rattle.codes.specs.Answers.{answer_of};
ghost use Rattle.codes.specs.Codes.{row_of};
ghost use Rattle.min_sum.specs.Outcomes.{decode_answer, convert_answer};

use codes::params;
use codes::refusal::{Refusal, check_length};

// Of a decode.
pub fn decode_refusal(
    code: usize,
    llrs: usize,
    output: usize,
    working: usize,
    working_u8: usize,
) -> Result<(), Refusal>
    ensures { answer_of result ≡ decode_answer code llrs output working working_u8 }
{
    let row = params(code)?;
    check_length(llrs, row.n, Refusal::WrongRead)?;
    check_length(output, row.output_len, Refusal::WrongWritten)?;
    check_length(working, row.decode_ms_working_len, Refusal::WrongWorking)?;
    check_length(
        working_u8,
        row.decode_ms_working_u8_len,
        Refusal::WrongSigns,
    )
}

// Of bits that become confidences, and of confidences that become bits.
pub fn to_llrs_refusal(code: usize, input: usize, llrs: usize) -> Result<(), Refusal>
    ensures { answer_of result ≡ convert_answer code input ((row_of code).n / 8) llrs (row_of code).n }
{
    let row = params(code)?;
    check_length(input, row.n / 8, Refusal::WrongRead)?;
    check_length(llrs, row.n, Refusal::WrongWritten)
}

pub fn to_hard_refusal(code: usize, llrs: usize, output: usize) -> Result<(), Refusal>
    ensures { answer_of result ≡ convert_answer code llrs (row_of code).n output ((row_of code).n / 8) }
{
    let row = params(code)?;
    check_length(llrs, row.n, Refusal::WrongRead)?;
    check_length(output, row.n / 8, Refusal::WrongWritten)
}
