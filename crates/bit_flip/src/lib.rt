// Bit flipping, a decoder of hard information. (Rust: decode_bf and decode_erasures of decoder.rs)

#![tactic(auto)]

ghost use Rattle.std.specs.Prelude.{◌≡◌, ◌-◌, ◌*◌, ◌≤◌, length};
ghost use Rattle.maths.specs.Lists.{span};
ghost use Rattle.maths.specs.Bits.{bit_at};
ghost use Rattle.codes.specs.Codes.{row_of, bits_in, checks_in};
ghost use Rattle.runs.specs.Runs.{laid};
ghost use Rattle.report.specs.Report.{report_of};
ghost use Rattle.bit_flip.specs.Erasures.{from_on};
ghost use Rattle.bit_flip.specs.Outcome.{left, ended, decoded_to, decode_word, decoded_word, decoded, outcome};
ghost use Rattle.bit_flip.specs.Steps.{Accepted};

use codes::refusal::{Refusal, check_length};
use codes::{CodeParams, FEW_CHECKS, MAX_CHECKS, params};
use erasures::{decode_erasures, set_from};
use few::FewRuns;
use passes::run_passes;
use report::Ended;
use runs::runs_of;

mod erasures;
mod few;
mod passes;

// The word that was received, of which the first n bits were sent, one byte a bit.
fn receive(input: &[u8], n: usize, bits: &mut [u8])
    requires { (8 * length input.now ≡ n) × (n ≤ length bits.old) }
    ensures { bits.new ≡ span (bit_at input.now) 0 (length bits.old) }
{
    bits::unpack(input, bits);
    set_from(bits, n, 0);
}

// All passes over the word that was received.
fn decode_bits(
    input: &[u8],
    n: usize,
    runs: &FewRuns,
    bits: &mut [u8],
    checks: &mut [u8],
    limit: usize,
) -> Ended
    requires { (8 * length input.now ≡ n) × (n ≤ length bits.old) }
    ensures { decoded_to (ended result) bits.new ≡ decode_word (laid (length checks.old) (length bits.old) runs.now) (length checks.old) (from_on n (length bits.old)) (length bits.old - n) limit (span (bit_at input.now) 0 (length bits.old)) }
{
    receive(input, n, bits);
    decode_erasures(runs, n, bits, checks, limit);
    run_passes(runs, bits, checks, limit)
}

// A call for a known code: its number and row, the bytes of as many bits as it sends, and how many main passes there may be.
#[derive(Drop)]
struct Call<'a> {
    code: usize,
    row: CodeParams,
    input: &'a [u8],
    limit: usize,
    ghost accepted: { Accepted code row (length input.now) },
}

impl Call<'_> {
    // The word, one byte a bit, with a byte for each check.
    fn decode_code(&self, bits: &mut [u8], checks: &mut [u8]) -> Ended
        requires { (length bits.old ≡ bits_in self.now.code) × (length checks.old ≡ checks_in self.now.code) }
        ensures { decoded_to (ended result) bits.new ≡ decoded_word self.now.code self.now.input.now self.now.limit }
    {
        let runs = runs_of(self.code);
        let few = FewRuns {
            list: runs.as_slice(),
        };
        decode_bits(self.input, self.row.n, &few, bits, checks, self.limit)
    }

    // The same, with the checks on the stack.
    fn decode_word(&self, bits: &mut [u8]) -> Ended
        requires { length bits.old ≡ bits_in self.now.code }
        ensures { decoded_to (ended result) bits.new ≡ decoded_word self.now.code self.now.input.now self.now.limit }
    {
        let m = self.row.n + self.row.punctured_bits - self.row.k;
        if m <= FEW_CHECKS {
            return self.decode_code(bits, &mut [0u8; FEW_CHECKS][..m]);
        }
        self.decode_code(bits, &mut [0u8; MAX_CHECKS][..m])
    }

    // The bits stand in the lent working buffer, which is cleared at the end.
    fn decode(&self, output: &mut [u8], working: &mut [u8]) -> Ended
        requires { (length output.old ≡ (row_of self.now.code).output_len) × (length working.old ≡ bits_in self.now.code) }
        ensures { left (ended result) output.new working.new ≡ decoded self.now.code self.now.input.now self.now.limit }
    {
        let ended = self.decode_word(working);
        bits::pack(working, output);
        working.fill(0);
        ended
    }
}

// Bit flipping on hard bits, at most limit main passes.
pub fn decode_bf(
    code: usize,
    input: &[u8],
    output: &mut [u8],
    working: &mut [u8],
    limit: usize,
) -> Result<Ended, Refusal>
    ensures { left (report_of result) output.new working.new ≡ outcome code input.now output.old working.old limit }
{
    let row = params(code)?;
    check_length(input.len(), row.n / 8, Refusal::WrongRead)?;
    check_length(output.len(), row.output_len, Refusal::WrongWritten)?;
    check_length(
        working.len(),
        row.decode_bf_working_len,
        Refusal::WrongWorking,
    )?;
    let call = Call {
        code,
        row,
        input,
        limit,
    };
    Ok(call.decode(output, working))
}
