// What the checks give to their bits, and the flip by it. A check's byte is 1 where it is broken; a bit's byte is the bit and, while scores are counted, twice its score.

#![tactic(auto)]

ghost use Rattle.std.specs.Prelude.{◌≡◌, map, length};
ghost use Rattle.maths.specs.Lists.{fold};
ghost use Rattle.runs.specs.Runs.{laid};
ghost use Rattle.codes.specs.Equations.{word_of};
ghost use Rattle.scores.specs.Scores.{twice, give, flip_byte};

use runs::EdgeRun;
use runs::steps::{Step, put_at_bits};

pub mod votes;

struct PlusTwice;

impl Step for PlusTwice {
    ghost op = { twice };

    fn step(x: u8, y: u8) -> u8 {
        x.wrapping_add(y).wrapping_add(y)
    }
}

// Twice what the checks have, to the bits of their edges, by the runs of the list that lie within.
pub fn give_runs(runs: &[EdgeRun], checks: &[u8], bits: &mut [u8])
    ensures { bits.new ≡ fold (give (word_of checks.now)) (laid (length checks.now) (length bits.old) runs.now) bits.old }
{
    put_at_bits::<PlusTwice>(runs, checks, bits);
}

fn flip_byte(top: u8, x: u8) -> u8
    ensures { result ≡ flip_byte top x }
{
    if x / 2 == top { 1 - x % 2 } else { x % 2 }
}

// (A loop of one line, as those of votes.rt: a function over a closure would be no plainer.)
pub fn flip_bytes(bits: &mut [u8], top: u8)
    ensures { bits.new ≡ map (flip_byte top) bits.old }
{
    for x in bits.iter_mut() {
        *x = flip_byte(top, *x);
    }
}
