// The examples of document 01 that are run, and those of the Rust's documentation: TC128, data 00 to 07. A call that is refused leaves
// the buffer as it was. At the end a frame of TM1280, unchanged.

#![tactic(auto)]

ghost use Rattle.std.specs.Prelude.{◌≤◌};

use codes::refusal::Refusal;
use report::{Ended, Report};
use sheet_text::print::print;
use std::io;

const DATA: [u8; 8] = [0, 1, 2, 3, 4, 5, 6, 7];

// Four lines: the answer, success, iterations and all bytes of a buffer.
fn show(rt: &impl Print, told: Result<Ended, Refusal>, output: &[u8]) -> io::Result<()> {
    rt.write_all(print(Report::from(told), output).as_slice())
}

fn show_encoded(rt: &impl Print, told: Result<(), Refusal>, codeword: &[u8]) -> io::Result<()> {
    let ended = Ended {
        success: true,
        iters: 0,
    };
    show(rt, told.and(Ok(ended)), codeword)
}

fn copied(rt: &impl Print, code: usize, data: &[u8], codeword: &mut [u8]) -> io::Result<()> {
    let told = encoder::copy_encode(code, data, codeword);
    show_encoded(rt, told, codeword)
}

fn in_place(rt: &impl Print, code: usize, codeword: &mut [u8]) -> io::Result<()> {
    let told = encoder::encode(code, codeword);
    show_encoded(rt, told, codeword)
}

fn encodes(rt: &impl Print) -> io::Result<()> {
    let mut codeword = [0xffu8; 16];
    copied(rt, 0, &DATA, &mut codeword)?;
    in_place(rt, 0, &mut codeword)?;
    copied(rt, 9, &DATA, &mut [0xffu8; 16])?;
    copied(rt, 0, &[], &mut [0xffu8; 16])?;
    copied(rt, 0, &DATA[..7], &mut [0xffu8; 15])?;
    copied(rt, 0, &[0u8; 9], &mut [0xffu8; 16])?;
    copied(rt, 0, &DATA, &mut [0xffu8; 15])?;
    copied(rt, 0, &DATA, &mut [0xffu8; 17])?;
    in_place(rt, 9, &mut [0xffu8; 15])?;
    in_place(rt, 0, &mut [])?;
    in_place(rt, 0, &mut [0xffu8; 15])?;
    in_place(rt, 0, &mut [0xffu8; 17])
}

// With buffers of these lengths.
fn flip(rt: &impl Print, code: usize, input: &[u8], output: usize, working: usize) -> io::Result<()>
    requires output { output ≤ 176 }
    requires working { working ≤ 1408 }
{
    let mut bytes = [0xffu8; 176];
    let output = &mut bytes[..output];
    let told = bit_flip::decode_bf(code, input, output, &mut [0u8; 1408][..working], 20);
    show(rt, told, output)
}

fn flips(rt: &impl Print, frame: &[u8]) -> io::Result<()> {
    flip(rt, 0, frame, 16, 128)?;
    flip(rt, 0, frame, 16, 127)?;
    flip(rt, 0, frame, 16, 129)?;
    flip(rt, 0, frame, 15, 127)?;
    flip(rt, 0, &[0u8; 15], 16, 127)?;
    flip(rt, 9, &[0u8; 15], 15, 127)
}

fn soft(
    rt: &impl Print,
    code: usize,
    input: &[u8],
    output: usize,
    working: usize,
    signs: usize,
) -> io::Result<()>
    requires output { output ≤ 17 }
    requires working { working ≤ 1280 }
    requires signs { signs ≤ 9 }
{
    let mut bytes = [0xffu8; 17];
    let output = &mut bytes[..output];
    let working = &mut [0i8; 1280][..working];
    let mut llrs = [0i8; 128];
    // accepted: the lengths are the code's
    let _ = confidence_i8::llrs::hard_to_llrs_i8(0, input, &mut llrs);
    let signs = &mut [0u8; 9][..signs];
    let told = min_sum_i8::decode_ms_i8(code, &llrs, output, working, signs, 20);
    show(rt, told, output)
}

fn softs(rt: &impl Print, frame: &[u8]) -> io::Result<()> {
    soft(rt, 0, frame, 16, 1280, 8)?;
    soft(rt, 0, frame, 16, 1280, 9)?;
    soft(rt, 0, frame, 16, 1279, 9)?;
    soft(rt, 0, frame, 17, 1279, 9)?;
    soft(rt, 9, frame, 17, 1279, 9)
}

// What was sent, then the bits that were not.
fn completed(rt: &impl Print) -> io::Result<()> {
    let mut frame = [0u8; 160];
    frame[0] = 0x80;
    in_place(rt, 3, &mut frame)?;
    flip(rt, 3, &frame, 176, 1408)
}

fn main(rt: HostRuntime) -> io::Result<()> {
    encodes(&rt)?;
    let mut frame = [0u8; 16];
    // accepted: the lengths are the code's
    let _ = encoder::copy_encode(0, &DATA, &mut frame);
    // four bits flipped
    frame[0] = 0x55;
    flips(&rt, &frame)?;
    softs(&rt, &frame)?;
    completed(&rt)
}
