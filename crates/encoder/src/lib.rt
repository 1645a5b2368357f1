// The byte encoder. (Rust: encoder.rs)

#![tactic(auto)]

ghost use Rattle.std.specs.Prelude.{◌≡◌, ◌/◌, ◌≤◌, ◌++◌, length, take, drop};
ghost use Rattle.codes.specs.Answers.{answer_of};
ghost use Rattle.codes.specs.Codes.{number_of, row_of};
ghost use Rattle.codes.specs.Frames.{encoded_bytes};
ghost use Rattle.encoder.specs.Outcomes.{encoded, encode_outcome, copy_encode_outcome};

mod parity;
mod rotation;
mod words;

use codes::Code;
use codes::refusal::{Refusal, check_length};
use parity::encode_parity;
use tables::compact_generators::{
    TC128_G, TC256_G, TC512_G, TM1280_G, TM1536_G, TM2048_G, TM5120_G, TM6144_G, TM8192_G,
};

// The parity behind the data of a code: its generator, of so many words and bytes.
fn encode_known(code: Code, codeword: &mut [u8])
    requires { length codeword.old ≡ (row_of (number_of code)).n / 8 }
    ensures { codeword.new ≡ encoded_bytes (number_of code) (take ((row_of (number_of code)).k / 8) codeword.old) }
{
    let row = code.params();
    match code {
        Code::TC128 => encode_parity::<4, 32>(codeword, &TC128_G, row),
        Code::TC256 => encode_parity::<8, 64>(codeword, &TC256_G, row),
        Code::TC512 => encode_parity::<16, 128>(codeword, &TC512_G, row),
        Code::TM1280 => encode_parity::<128, 1024>(codeword, &TM1280_G, row),
        Code::TM1536 => encode_parity::<128, 1024>(codeword, &TM1536_G, row),
        Code::TM2048 => encode_parity::<128, 1024>(codeword, &TM2048_G, row),
        Code::TM5120 => encode_parity::<512, 4096>(codeword, &TM5120_G, row),
        Code::TM6144 => encode_parity::<512, 4096>(codeword, &TM6144_G, row),
        Code::TM8192 => encode_parity::<512, 4096>(codeword, &TM8192_G, row),
    }
}

// Encodes in place: the data stands in the first k/8 bytes of the codeword.
pub fn encode(code: usize, codeword: &mut [u8]) -> Result<(), Refusal>
    ensures { encoded (answer_of result) codeword.new ≡ encode_outcome code codeword.old }
{
    let code = Code::try_from(code)?;
    check_length(codeword.len(), code.params().n / 8, Refusal::WrongWritten)?;
    encode_known(code, codeword);
    Ok(())
}

// Copies the data to the front of the codeword. (By an index: `copy_from_slice` calls memmove, which who links the library may not have.)
fn copy_in(data: &[u8], codeword: &mut [u8])
    requires { length «data».now ≤ length codeword.old }
    ensures { codeword.new ≡ «data».now ++ drop (length «data».now) codeword.old }
{
    for i in 0..data.len() {
        codeword[i] = data[i];
    }
}

// Encodes data that stands elsewhere: it is copied first.
#[tactic(auto, using(crate::proofs::Answered::copying))]
pub fn copy_encode(code: usize, data: &[u8], codeword: &mut [u8]) -> Result<(), Refusal>
    ensures { encoded (answer_of result) codeword.new ≡ copy_encode_outcome code «data».now codeword.old }
{
    let code = Code::try_from(code)?;
    let row = code.params();
    check_length(data.len(), row.k / 8, Refusal::WrongRead)?;
    check_length(codeword.len(), row.n / 8, Refusal::WrongWritten)?;
    copy_in(data, codeword);
    encode_known(code, codeword);
    Ok(())
}
