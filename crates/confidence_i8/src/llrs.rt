// From confidences to hard bits, and back. (Rust: hard_to_llrs, llrs_to_hard)
ghost use Rattle.std.specs.Prelude.{◌≡◌, ◌+◌, ◌-◌, ◌*◌, ◌/◌, ◌%◌, ◌^◌, ◌<◌, ◌≤◌, eqb, pos, negsuc, length};
ghost use Rattle.maths.specs.Tests.{pick};
ghost use Rattle.maths.specs.Sums.{sum_n};
ghost use Rattle.maths.specs.Bits.{bit_at};
ghost use Rattle.maths.specs.Bytes.{byte};
ghost use Rattle.codes.specs.Answers.{answer_of};
ghost use Rattle.min_sum.specs.Confidence.{i8};
ghost use Rattle.min_sum.specs.MinSum.{hard_bits};
ghost use Rattle.min_sum.specs.Hard.{packed, to_llrs};
ghost use Rattle.min_sum.specs.Outcomes.{written, to_llrs_outcome, to_hard_outcome};

use codes::refusal::Refusal;
use min_sum::refusals::{to_hard_refusal, to_llrs_refusal};

fn bit(x: i8) -> u8
    ensures { (result ≡ pick (i8.hard x) 1 0) × (result < 2) }
{
    u8::from(x < 0)
}

// The hard bits of four numbers from a on, the first highest.
fn hard_nibble(w: &[i8], a: usize) -> u8
    requires { a + 4 ≤ length w.now }
    ensures { (result ≡ sum_n 4 (λ t. hard_bits i8 w.now (a + t) % 2 * 2 ^ (3 - t))) × (result < 16) }
{
    8 * bit(w[a]) + 4 * bit(w[a + 1]) + 2 * bit(w[a + 2]) + bit(w[a + 3])
}

// The byte of the hard bits from a on.
fn hard_byte(w: &[i8], a: usize) -> u8
    requires { a + 8 ≤ length w.now }
    ensures { result ≡ byte (λ t. hard_bits i8 w.now (a + t)) 0 }
{
    16 * hard_nibble(w, a) + hard_nibble(w, a + 4)
}

// The hard bits of numbers, as many bytes as output has; it stays as it is where there are too few numbers.
#[tactic(auto, using(min_sum::proofs::HardBits::packs))]
pub fn pack(output: &mut [u8], w: &[i8])
    ensures { output.new ≡ packed i8 w.now output.old }
{
    if w.len() / 8 < output.len() {
        return;
    }
    for (i, byte) in output.iter_mut().enumerate() {
        *byte = hard_byte(w, 8 * i);
    }
}

fn llr(input: &[u8], i: usize) -> i8
    requires { i / 8 < length input.now }
    ensures { result ≡ pick (eqb (bit_at input.now i) 1) (negsuc 0) (pos 1) }
{
    let bit = (input[i / 8] >> (7 - i % 8)) % 2;
    if bit == 1 { -1 } else { 1 }
}

#[tactic(auto, using(min_sum::proofs::Loops::unpacks))]
fn unpack(llrs: &mut [i8], input: &[u8])
    requires { length llrs.old ≡ 8 * length input.now }
    ensures { llrs.new ≡ to_llrs (negsuc 0) (pos 1) input.now }
{
    for (i, x) in llrs.iter_mut().enumerate() {
        *x = llr(input, i);
    }
}

// The confidence -1 for each bit that is 1, and 1 for each that is 0.
pub fn hard_to_llrs_i8(code: usize, input: &[u8], llrs: &mut [i8]) -> Result<(), Refusal>
    ensures { written (answer_of result) llrs.new ≡ to_llrs_outcome (negsuc 0) (pos 1) code input.now llrs.old }
{
    to_llrs_refusal(code, input.len(), llrs.len())?;
    unpack(llrs, input);
    Ok(())
}

// The hard bit of each confidence.
pub fn llrs_to_hard_i8(code: usize, llrs: &[i8], output: &mut [u8]) -> Result<(), Refusal>
    ensures { written (answer_of result) output.new ≡ to_hard_outcome i8 code llrs.now output.old }
{
    to_hard_refusal(code, llrs.len(), output.len())?;
    pack(output, llrs);
    Ok(())
}
