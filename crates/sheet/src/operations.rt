// The three operations of a sheet, each with the buffers that its code asks for.
ghost use Rattle.std.specs.Prelude.{◌≡◌};
ghost use Rattle.codes.specs.Codes.{row_of};
ghost use Rattle.codes.specs.Sound.{Bounded};
ghost use Rattle.sheet_values.specs.declared.Op.TheVariants.{Ms};
ghost use Rattle.sheet.specs.Refused.{text_of};
ghost use Rattle.sheet.specs.Sheet.{encode_sheet, bf_sheet, operation};

use crate::Refused;
use codes::{Code, CodeParams, MAX_BITS, MAX_BYTES, MAX_SENT_BYTES, params};
use confidence_i8::llrs::hard_to_llrs_i8;
use report::{Ended, Report};
use sheet_text::print::{Answer, print};

// The code whose min-sum needs more room than a sheet has: TM8192. (By its number, as a sheet gives it: others are the library's to refuse.)
const TOO_LARGE: usize = Code::TM8192 as usize;

// What the others ask for at most: confidences, working numbers and sign bytes.
const SOFT_SENT: usize = 6144;

const SOFT_WORKING: usize = 60416;

const SOFT_SIGNS: usize = 384;

// A code that is not known asks for empty buffers.
fn row_of(code: usize) -> CodeParams
    ensures row { result ≡ row_of code }
    ensures bounded { Bounded result }
{
    params(code).unwrap_or_default()
}

pub(crate) fn encode(code: usize, frame: &[u8]) -> Result<Answer, Refused>
    ensures { text_of result ≡ encode_sheet code frame.now }
{
    let mut codeword = [0u8; MAX_SENT_BYTES];
    let codeword = &mut codeword[..row_of(code).n / 8];
    encoder::copy_encode(code, frame, codeword)?;
    let ended = Ended {
        success: true,
        iters: 0,
    };
    Ok(print(Report::from(ended), codeword))
}

pub(crate) fn flip(code: usize, frame: &[u8], limit: usize) -> Result<Answer, Refused>
    ensures { text_of result ≡ bf_sheet code limit frame.now }
{
    let mut output = [0u8; MAX_BYTES];
    let mut working = [0u8; MAX_BITS];
    let row = row_of(code);
    let output = &mut output[..row.output_len];
    let working = &mut working[..row.decode_bf_working_len];
    let ended = bit_flip::decode_bf(code, frame, output, working, limit)?;
    Ok(print(Report::from(ended), output))
}

pub(crate) fn soft(code: usize, frame: &[u8], limit: usize) -> Result<Answer, Refused>
    ensures { text_of result ≡ operation Ms code limit frame.now }
{
    // A code by its number, as the sheet gives it.
    if code == TOO_LARGE {
        return Err(Refused::NoRoom);
    }
    let mut llrs = [0i8; SOFT_SENT];
    let mut output = [0u8; MAX_BYTES];
    let mut working = [0i8; SOFT_WORKING];
    let mut signs = [0u8; SOFT_SIGNS];
    let row = row_of(code);
    let llrs = &mut llrs[..row.n];
    let output = &mut output[..row.output_len];
    let working = &mut working[..row.decode_ms_working_len];
    let signs = &mut signs[..row.decode_ms_working_u8_len];
    hard_to_llrs_i8(code, frame, llrs)?;
    let ended = min_sum_i8::decode_ms_i8(code, llrs, output, working, signs, limit)?;
    Ok(print(Report::from(ended), output))
}
