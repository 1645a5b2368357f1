// The edges of a code as a short list of runs, in the order of the walk: what the decoders loop over. (The Rust walks edge by edge.)

#![tactic(auto)]

ghost use Rattle.std.specs.Prelude.{◌≡◌, slice_index_or};
ghost use Rattle.runs.specs.Runs.{run, within, runs};

use codes::parity_iter::{Bit, Block, Check, Place, first_block, next_block};
use codes::{params, phi_of, prototype_of};
use std::marker::Model;
use tables::compact_parity_checks::THETA_K;

pub mod meets;
pub mod steps;

// No code has more runs.
pub const MAX_RUNS: usize = 264;

// The first check of a run, and its first bit: two types, so that neither is taken for the other.
#[derive(Clone, Copy, Debug, Default, PartialEq, Eq)]
pub struct FirstCheck(pub u16);

#[derive(Clone, Copy, Debug, Default, PartialEq, Eq)]
pub struct FirstBit(pub u16);

// One run: its first check, its first bit, and how many edges (check + i, bit + i) it has. Runs are read over and over, and this is a quarter
// of what three usize take.
#[derive(Clone, Copy, Debug, Default, PartialEq, Eq)]
pub struct EdgeRun {
    pub check: FirstCheck,
    pub bit: FirstBit,
    pub size: u16,
}

impl EdgeRun {
    ghost use Rattle.std.specs.Prelude.{◌≡◌};
    ghost use Rattle.runs.specs.Runs.{within};

    // Whether the run lies within so many checks and bits.
    pub fn lies_within(self, checks: usize, bits: usize) -> bool
        ensures { result ≡ within checks bits self }
    {
        let check = Check(usize::from(self.check.0));
        let bit = Bit(usize::from(self.bit.0));
        lies_within(check, bit, usize::from(self.size), checks, bits)
    }
}

// What a parity check matrix is made of.
#[derive(Clone, Copy)]
struct Matrix<'a> {
    size: usize,
    theta: &'a [u8; 26],
    phi: &'a [[u16; 26]; 4],
    prototype: &'a [[[u8; 11]; 4]; 3],
}

// A list of runs, in fixed memory: no code needs a heap. Behind it are runs of no edges.
#[derive(Clone, Copy)]
pub struct Runs {
    count: usize,
    list: [EdgeRun; MAX_RUNS],
}

impl Model for Runs {
    ghost use Rattle.std.specs.Prelude.{List, take, ◌++◌, length};
    ghost use Rattle.runs.specs.declared.EdgeRun.{EdgeRun};
    ghost use Rattle.runs.specs.Padded.{spare, Padded, padded_count, padded_list};

    ghost Value = { List EdgeRun };

    ghost view = { λ r. take r.count r.list };

    ghost invariant = { λ r. Padded r.count r.list };

    ghost inverse = { λ v. record { count = length v; list = v ++ spare (length v) } };

    ghost inverse_ok = { λ r h i. record { count = padded_count r.count r.list h i; list = padded_list r.count r.list h i } };
}

impl Runs {
    ghost use Rattle.std.specs.Prelude.{◌≡◌, ◌<◌, ◌≤◌, ◌+◌, ◌∷◌, ◌++◌, [], length};
    ghost use mathlib.Core.List.{flat_map};
    ghost use Rattle.codes.specs.declared.parity_iter.Block.TheVariants.{Permutation};
    ghost use Rattle.codes.specs.Blocks.{blocks};
    ghost use Rattle.runs.specs.Runs.{turned_runs, quarter, quarters, runs_at, block_runs, room, made_of};
    ghost use Rattle.runs.specs.Sound.{TurnFits, QuarterFits, BlockFits, PlaceFits, RunsFit};

    fn new() -> Runs
        ensures { result ≡ [] }
    {
        Runs {
            count: 0,
            list: [EdgeRun::default(); MAX_RUNS],
        }
    }

    pub fn as_slice(&self) -> &[EdgeRun]
        ensures { result.now ≡ self.now }
    {
        &self.list[..self.count]
    }

    fn push(&mut self, run: EdgeRun)
        requires { length self.old < room }
        ensures { self.new ≡ self.old ++ run ∷ [] }
    {
        self.list[self.count] = run;
        self.count += 1;
    }

    // The edges of a turned identity: one run, or two.
    fn push_turned(&mut self, run: EdgeRun, turn: u16)
        requires { TurnFits (length self.old) run.check.0 run.bit.0 turn run.size }
        ensures { self.new ≡ self.old ++ turned_runs run.check.0 run.bit.0 turn run.size }
    {
        if turn == 0 {
            self.push(run);
            return;
        }
        let left = run.size - turn;
        self.push(EdgeRun {
            check: run.check,
            bit: FirstBit(run.bit.0 + turn),
            size: left,
        });
        self.push(EdgeRun {
            check: FirstCheck(run.check.0 + left),
            bit: run.bit,
            size: turn,
        });
    }

    // A quarter of a permutation, a turned identity. The block is given as the run of all its rows. (A cast of what is proved to fit, here and
    // below: try_from would test it again.)
    fn push_quarter(&mut self, matrix: &Matrix, block: EdgeRun, value: usize, j: usize)
        requires { QuarterFits (length self.old) block.check.0 block.bit.0 block.size value j }
        ensures { self.new ≡ self.old ++ quarter block.size matrix.now.theta.now matrix.now.phi.now value block.check.0 block.bit.0 j }
    {
        let q = block.size / 4;
        let turn = (usize::from(matrix.theta[value]) + j) % 4;
        let run = EdgeRun {
            check: FirstCheck(block.check.0 + j as u16 * q),
            bit: FirstBit(block.bit.0 + turn as u16 * q),
            size: q,
        };
        self.push_turned(run, matrix.phi[j][value] % q);
    }

    fn push_quarters(&mut self, matrix: &Matrix, block: EdgeRun, value: usize)
        requires { BlockFits (length self.old) block.check.0 block.bit.0 block.size (Permutation value) }
        ensures { self.new ≡ self.old ++ quarters block.size matrix.now.theta.now matrix.now.phi.now value block.check.0 block.bit.0 4 }
    {
        // By number: a quarter's is added to theta's, and picks a row of phi.
        for j in 0..4 {
            self.push_quarter(matrix, block, value, j);
        }
    }

    fn push_block(&mut self, matrix: &Matrix, block: EdgeRun, kind: Block)
        requires { BlockFits (length self.old) block.check.0 block.bit.0 block.size kind }
        ensures { self.new ≡ self.old ++ runs_at block.size matrix.now.theta.now matrix.now.phi.now kind block.check.0 block.bit.0 }
    {
        match kind {
            Block::Ends => {}
            Block::Empty => {}
            Block::Identity(v) => self.push_turned(block, v as u16 % block.size),
            Block::Permutation(v) => self.push_quarters(matrix, block, v),
        }
    }

    fn push_place(&mut self, matrix: &Matrix, p: Place)
        requires { PlaceFits (made_of matrix.now) (length self.old) p }
        ensures { self.new ≡ self.old ++ block_runs (made_of matrix.now) p }
    {
        let m = matrix.size;
        let block = EdgeRun {
            check: FirstCheck((p.row * m) as u16),
            bit: FirstBit((p.col * m) as u16),
            size: m as u16,
        };
        let kind = Block::from(matrix.prototype[p.layer][p.row][p.col]);
        self.push_block(matrix, block, kind);
    }

    // The blocks are found as the walk finds them, in the same words: `successors` would hold a closure over the table.
    fn fill(&mut self, matrix: &Matrix)
        requires { (self.old ≡ []) × RunsFit (made_of matrix.now) }
        ensures { self.new ≡ flat_map (block_runs (made_of matrix.now)) (blocks matrix.now.prototype.now) }
    {
        let mut found = first_block(matrix.prototype);
        while let Some(p) = found {
            self.push_place(matrix, p);
            found = next_block(matrix.prototype, p);
        }
    }
}

// The runs of a code; none where it is not known.
pub fn runs_of(code: usize) -> Runs
    ensures { result ≡ runs code }
{
    let mut runs = Runs::new();
    if let Ok(row) = params(code) {
        let matrix = Matrix {
            size: row.submatrix_size,
            theta: &THETA_K,
            phi: &phi_of(code),
            prototype: &prototype_of(code),
        };
        runs.fill(&matrix);
    }
    runs
}

// Run number i of a list; one without edges where there is none.
pub fn run_at(runs: &[EdgeRun], i: usize) -> EdgeRun
    ensures { result ≡ slice_index_or runs.now i (run 0 0 0) }
{
    runs.get(i).copied().unwrap_or_default()
}

// Whether a run lies within so many checks and bits; one whose end wraps doesn't.
pub fn lies_within(check: Check, bit: Bit, size: usize, checks: usize, bits: usize) -> bool
    ensures { result ≡ within checks bits (run check.0 bit.0 size) }
{
    check.0.checked_add(size).is_some_and(|end| end <= checks)
        && bit.0.checked_add(size).is_some_and(|end| end <= bits)
}
