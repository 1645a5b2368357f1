// Runs a list of the Rust's answers and compares every answer and byte. tools/rust-answers makes the list, data/cases;
// compare/src/bin/record.rs says how a case is written.

#![tactic(auto)]

mod list;
mod operations;

use cases::{Case, HEAD, Operation, read_len, written_len};
use codes::{CodeParams, MAX_SENT, params};
use list::{filled, head};
use operations::{answers, bit_flipping, encoders, min_sum_i8, to_hard, to_llrs};
use sheet_text::read::TEXT_ROOM;
use std::fs::File;
use std::io;
use std::io::Read;

// One case, from the list into the buffers that are lent: of the lengths that its operation reads and writes.
fn run_case(
    list: &mut impl Read,
    c: Case,
    row: CodeParams,
    read: &mut [u8],
    want: &mut [u8],
    output: &mut [u8],
) -> bool {
    if !filled(list, read) || !filled(list, want) {
        return false;
    }
    // A match, and no table of functions: each operation takes other buffers.
    match Operation::try_from(c.op) {
        Ok(Operation::Encoders) => encoders(c, read, want, output),
        Ok(Operation::BitFlipping) => bit_flipping(c, row, read, want, output),
        Ok(Operation::MinSum) => min_sum_i8(c, row, read, want, output),
        Ok(Operation::HardToLlrs) => to_llrs(c, read, want),
        Ok(Operation::LlrsToHard) => to_hard(c, read, want, output),
        Ok(Operation::Sheet) => answers(read, want),
        Err(_) => false,
    }
}

// Whether the library does what a case records.
fn agrees(list: &mut impl Read, c: Case) -> bool {
    let mut read = [0; TEXT_ROOM];
    let mut want = [0; MAX_SENT];
    let mut output = [0; MAX_SENT];
    let row = params(c.code).unwrap_or_default();
    let r = read_len(c, row).min(TEXT_ROOM);
    let w = written_len(c, row).min(MAX_SENT);
    run_case(
        list,
        c,
        row,
        &mut read[..r],
        &mut want[..w],
        &mut output[..w],
    )
}

// Whether the list goes on after the case numbered i; a head of zeros ends it. A number of no operation differs from what is recorded.
fn goes_on(rt: &impl Print, list: &mut impl Read, i: usize) -> io::Result<bool> {
    let bytes: [u8; HEAD] = head(list);
    let [op, code, ..] = bytes;
    if op == 0 {
        println!(rt; "{i} cases, no difference")?;
        return Ok(false);
    }
    let agreed = match Case::try_from(bytes) {
        Ok(c) => agrees(list, c),
        Err(_) => false,
    };
    if !agreed {
        println!(rt; "{i} cases agree, the next differs: operation {op}, code {code}")?;
    }
    Ok(agreed)
}

// No list is longer than a million cases.
fn run_list(rt: &impl Print, list: &mut impl Read) -> io::Result<()> {
    for i in 0..1000000 {
        if !goes_on(rt, list, i)? {
            break;
        }
    }
    Ok(())
}

fn main(rt: HostRuntime) -> io::Result<()> {
    match File::open(&rt, "cases") {
        Ok(mut list) => run_list(&rt, &mut list),
        Err(why) => eprintln!(rt; "cases: {why}"),
    }
}
