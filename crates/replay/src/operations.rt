// Each operation, run as a case says: whether the library answers what the Rust did and writes the same bytes.
ghost use Rattle.std.specs.Prelude.{map, ◌≡◌, pos, negsuc, length};
ghost use Rattle.maths.specs.Tests.{Agrees};
ghost use Rattle.codes.specs.Codes.{max_bits, max_sent, max_signs, max_soft_working};
ghost use Rattle.min_sum.specs.Confidence.{i8};
ghost use Rattle.bit_flip.specs.Outcome.{told_flip};
ghost use Rattle.min_sum.specs.Outcomes.{told_soft, written, to_llrs_outcome, to_hard_outcome};
ghost use Rattle.sheet.specs.Sheet.{sheet_of};
ghost use Rattle.cases.specs.Cases.{signed, softened};
ghost use Rattle.replay.specs.Agreement.{EncodeCompared, Converted, Compared, FlipCompared, SoftCompared, bit_flipping, min_sum, lent};

use cases::soft::{same_soft, soften};
use cases::{Case, reported};
use codes::{CodeParams, MAX_BITS, MAX_SENT, MAX_SIGNS, MAX_SOFT_WORKING};
use report::Report;

// Both encoders: the data copied in, then the frame encoded once more in place.
pub(crate) fn encoders(c: Case, data: &[u8], want: &[u8], word: &mut [u8]) -> bool
    ensures { EncodeCompared c.code «data».now word.old want.now result word.new }
{
    encoder::copy_encode(c.code, data, word).is_ok()
        && *word == *want
        && encoder::encode(c.code, word).is_ok()
        && *word == *want
}

fn bit_flipping_on(c: Case, read: &[u8], want: &[u8], output: &mut [u8], working: &mut [u8]) -> bool
    ensures { FlipCompared c want.now (bit_flipping c read.now output.old working.old) result output.new working.new }
{
    let r = bit_flip::decode_bf(c.code, read, output, working, c.limit);
    reported(Report::from(r), c) && *output == *want
}

pub(crate) fn bit_flipping(
    c: Case,
    row: CodeParams,
    read: &[u8],
    want: &[u8],
    output: &mut [u8],
) -> bool
    ensures { Compared c want.now (told_flip (bit_flipping c read.now output.old (lent max_bits 0 row.decode_bf_working_len))) result output.new }
{
    let mut working = [0u8; MAX_BITS];
    let w = row.decode_bf_working_len.min(MAX_BITS);
    bit_flipping_on(c, read, want, output, &mut working[..w])
}

fn min_sum_on(
    c: Case,
    read: &[u8],
    want: &[u8],
    output: &mut [u8],
    llrs: &mut [i8],
    working: &mut [i8],
    signs: &mut [u8],
) -> bool
    ensures { (SoftCompared c want.now (min_sum c read.now output.old llrs.old working.old signs.old) result output.new working.new signs.new) × (llrs.new ≡ softened read.now llrs.old) }
{
    soften(read, llrs);
    let r = min_sum_i8::decode_ms_i8(c.code, llrs, output, working, signs, c.limit);
    reported(Report::from(r), c) && *output == *want
}

pub(crate) fn min_sum_i8(
    c: Case,
    row: CodeParams,
    read: &[u8],
    want: &[u8],
    output: &mut [u8],
) -> bool
    ensures { Compared c want.now (told_soft (min_sum c read.now output.old (lent max_sent (pos 0) (length read.now)) (lent max_soft_working (pos 0) row.decode_ms_working_len) (lent max_signs 0 row.decode_ms_working_u8_len))) result output.new }
{
    let mut llrs = [0i8; MAX_SENT];
    let mut working = [0i8; MAX_SOFT_WORKING];
    let mut signs = [0u8; MAX_SIGNS];
    let n = read.len().min(MAX_SENT);
    let w = row.decode_ms_working_len.min(MAX_SOFT_WORKING);
    let s = row.decode_ms_working_u8_len.min(MAX_SIGNS);
    min_sum_on(
        c,
        read,
        want,
        output,
        &mut llrs[..n],
        &mut working[..w],
        &mut signs[..s],
    )
}

fn to_llrs_on(c: Case, read: &[u8], want: &[u8], llrs: &mut [i8]) -> bool
    ensures { Converted (to_llrs_outcome (negsuc 0) (pos 1) c.code read.now llrs.old) (map signed want.now) result llrs.new }
{
    confidence_i8::llrs::hard_to_llrs_i8(c.code, read, llrs).is_ok() && same_soft(llrs, want)
}

pub(crate) fn to_llrs(c: Case, read: &[u8], want: &[u8]) -> bool
    ensures { Agrees result (to_llrs_outcome (negsuc 0) (pos 1) c.code read.now (lent max_sent (pos 0) (length want.now)) ≡ written 0 (map signed want.now)) }
{
    let mut llrs = [0i8; MAX_SENT];
    let n = want.len().min(MAX_SENT);
    to_llrs_on(c, read, want, &mut llrs[..n])
}

fn to_hard_on(c: Case, read: &[u8], want: &[u8], output: &mut [u8], llrs: &mut [i8]) -> bool
    ensures { (Converted (to_hard_outcome i8 c.code (softened read.now llrs.old) output.old) want.now result output.new) × (llrs.new ≡ softened read.now llrs.old) }
{
    soften(read, llrs);
    confidence_i8::llrs::llrs_to_hard_i8(c.code, llrs, output).is_ok() && *output == *want
}

pub(crate) fn to_hard(c: Case, read: &[u8], want: &[u8], output: &mut [u8]) -> bool
    ensures { Converted (to_hard_outcome i8 c.code (softened read.now (lent max_sent (pos 0) (length read.now))) output.old) want.now result output.new }
{
    let mut llrs = [0i8; MAX_SENT];
    let n = read.len().min(MAX_SENT);
    to_hard_on(c, read, want, output, &mut llrs[..n])
}

pub(crate) fn answers(text: &[u8], want: &[u8]) -> bool
    ensures { Agrees result (sheet_of text.now ≡ want.now) }
{
    sheet::sheet(text).as_slice() == want
}
