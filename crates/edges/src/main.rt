// Writes the parameters of each code, then every edge of its walk in order: a check number and a bit number to a line.

#![tactic(auto)]

use codes::parity_iter::{Bit, Check, ParityIter, iter_paritychecks};
use codes::{CODES, CodeParams, params};
use std::io;

fn write_row(rt: &impl Print, row: CodeParams) -> io::Result<()> {
    let mut before = "";
    for n in row.numbers() {
        print!(rt; "{before}{n}")?;
        before = " ";
    }
    println!(rt)
}

fn write_edges(rt: &impl Print, walk: ParityIter) -> io::Result<()> {
    for (Check(check), Bit(bit)) in walk {
        println!(rt; "{check} {bit}")?;
    }
    Ok(())
}

fn main(rt: HostRuntime) -> io::Result<()> {
    for code in 0..CODES {
        write_row(&rt, params(code).unwrap())?;
        write_edges(&rt, iter_paritychecks(code).unwrap())?;
    }
    Ok(())
}
