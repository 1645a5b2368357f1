// Reads a bench sheet from standard input and writes the answer to standard output.

#![tactic(auto)]

ghost use Rattle.std.specs.Prelude.{◌≤◌, length, IfOk};

use sheet_text::read::TEXT_ROOM;
use std::io;
use std::io::Read;

// Reads to the end of the input, or until the buffer is full.
fn read_text(from: &mut impl Read, text: &mut [u8]) -> io::Result<usize>
    ensures { IfOk result (λ n. n ≤ length text.new) }
{
    let mut done = 0;
    // No iterator: only a read says how much it brought.
    while done < text.len() {
        let more = from.read(&mut text[done..])?;
        if more == 0 {
            break;
        }
        done += more;
    }
    Ok(done)
}

// Writes a line to standard error: what failed, a colon and why.
fn fail(rt: &impl Eprint, what: &str, why: io::Error) {
    let _ = eprintln!(rt; "{what}: {why}");
}

fn main(rt: HostRuntime) {
    let mut text = [0u8; TEXT_ROOM];
    match read_text(&mut rt.stdin(), &mut text) {
        Ok(n) => {
            if let Err(why) = rt.write_all(sheet::sheet(&text[..n]).as_slice()) {
                fail(&rt, "standard output", why);
            }
        }
        Err(why) => fail(&rt, "standard input", why),
    }
}
