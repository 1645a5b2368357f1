// The walk over the edges of a parity check matrix. (Rust: ParityIter and iter_paritychecks of codes/mod.rs)
ghost use Rattle.std.specs.Prelude.{◌≡◌, [], ◌<◌, ◌≤◌, ◌%◌};
ghost use Rattle.std.specs.Iterator.{item_count};
ghost use Rattle.codes.specs.Codes.{made, max_block};
ghost use Rattle.codes.specs.Blocks.{block_of, blocks, blocks_from, head_of, next_block};
ghost use Rattle.codes.specs.Edges.{identity_column, permutation_column};
ghost use Rattle.codes.specs.Walk.{Inside, matrix, remaining, start_at, new_of, walk_at, begun_by, begun_of, next_of, column_at, handed, after_step, Steps};

use crate::refusal::Refusal;
use crate::{CODES, Code, CodeParams, params, phi_of, prototype_of};
use tables::compact_parity_checks::THETA_K;

// The number of a check, and the number of a bit: two types, so that neither can be used as the other.
#[derive(Clone, Copy, Debug, PartialEq, Eq)]
pub struct Check(pub usize);

#[derive(Clone, Copy, Debug, PartialEq, Eq)]
pub struct Bit(pub usize);

// A block of a prototype: a layer of a cell.
#[derive(Clone, Copy, Debug, PartialEq, Eq)]
pub struct Place {
    pub row: usize,
    pub col: usize,
    pub layer: usize,
}

// What a prototype byte says: no more layers, no edges, an identity turned by a value, or a permutation.
#[derive(Clone, Copy, Debug, PartialEq, Eq)]
pub enum Block {
    Ends,
    Empty,
    Identity(usize),
    Permutation(usize),
}

impl From<u8> for Block {
    ghost from_gives = { λ byte b. b ≡ block_of byte };

    fn from(byte: u8) -> Self {
        match byte {
            0 => Block::Ends,
            1..=63 => Block::Empty,
            64..=127 => Block::Identity(usize::from(byte % 64)),
            128..=191 => Block::Permutation(usize::from(byte % 64)),
            192..=255 => Block::Empty,
        }
    }
}

// The first block from a layer of a cell on. A layer that has edges is the answer, one without asks the next; after the last of them, or the
// byte 0, the next cell is asked, past the last column the next row's first.
// Three counters that go on from anywhere: loops one in the other would each have to begin twice, at the place and at 0.
fn block_from(h: &[[[u8; 11]; 4]; 3], from: Place) -> Option<Place>
    requires { (from.row < 4) × (from.col < 11) }
    ensures { result ≡ head_of (blocks_from h.now from.row from.col from.layer) }
{
    let Place {
        mut row,
        mut col,
        mut layer,
    } = from;
    while row < 4 {
        if layer < 3 {
            match Block::from(h[layer][row][col]) {
                Block::Ends => layer = 3,
                Block::Empty => layer += 1,
                _ => return Some(Place { row, col, layer }),
            }
        } else {
            layer = 0;
            col += 1;
            if col == 11 {
                col = 0;
                row += 1;
            }
        }
    }
    None
}

// The first block of a prototype, and the next one after a place; none where that is no place of a prototype.
pub fn first_block(h: &[[[u8; 11]; 4]; 3]) -> Option<Place>
    ensures { result ≡ head_of (blocks h.now) }
{
    block_from(
        h,
        Place {
            row: 0,
            col: 0,
            layer: 0,
        },
    )
}

pub fn next_block(h: &[[[u8; 11]; 4]; 3], p: Place) -> Option<Place>
    ensures { result ≡ next_block h.now p }
{
    if p.row >= 4 || p.col >= 11 || p.layer >= 3 {
        return None;
    }
    block_from(
        h,
        Place {
            layer: p.layer + 1,
            ..p
        },
    )
}

fn identity_column(m: usize, v: usize, i: usize) -> usize
    requires { (m ≤ max_block) × ((v < 64) × (i < m)) }
    ensures { result ≡ identity_column m v i }
{
    (i + v) % m
}

fn permutation_column(m: usize, theta: &[u8; 26], phi: &[[u16; 26]; 4], v: usize, i: usize) -> usize
    requires { (m ≤ max_block) × ((m % 4 ≡ 0) × ((v < 26) × (i < m))) }
    ensures { result ≡ permutation_column (made m theta.now phi.now []) v i }
{
    let q = m / 4;
    let j = i / q;
    q * ((usize::from(theta[v]) + j) % 4) + (usize::from(phi[j][v]) + i) % q
}

// A walk stands at an edge: row i of a block. Where its numbers are no edge's, it is finished: so they are any numbers, and not a `Code` and a
// `Place` (`stands`).
#[derive(Clone, Copy, Debug, PartialEq, Eq)]
pub struct ParityIter {
    pub code: usize,
    pub row: usize,
    pub col: usize,
    pub layer: usize,
    pub i: usize,
}

// The walk over a code's edges.
pub fn iter_paritychecks(code: usize) -> Result<ParityIter, Refusal>
    ensures found { result ≡ walk_at code }
    ensures told { begun_by code result ≡ begun_of code }
{
    Code::try_from(code)?;
    Ok(ParityIter::new(code))
}

// The walk at a block's first row, or the finished walk.
fn start_at(code: usize, found: Option<Place>) -> ParityIter
    ensures { result ≡ start_at code found }
{
    let Place { row, col, layer } = found.unwrap_or(Place {
        row: 4,
        col: 0,
        layer: 0,
    });
    ParityIter {
        code,
        row,
        col,
        layer,
        i: 0,
    }
}

impl ParityIter {
    // The walk over a code's edges, a finished one where the code is not known.
    pub fn new(code: usize) -> ParityIter
        ensures { result ≡ new_of code }
    {
        if code >= CODES {
            return start_at(code, None);
        }
        let h = prototype_of(code);
        start_at(code, first_block(&h))
    }

    // One step: the edge at which it stands and the walk after it, or none where it is finished.
    pub fn step(self) -> Option<((Check, Bit), ParityIter)>
        ensures { (result ≡ handed self) × (after_step result ≡ remaining self) }
    {
        let mut walk = self;
        let edge = walk.next()?;
        Some((edge, walk))
    }

    // The walk after this edge, in blocks of the size m.
    fn moved(self, m: usize) -> ParityIter
        requires { Inside self × (m ≡ (matrix self).size) }
        ensures { result ≡ next_of self }
    {
        if self.i + 1 < m {
            ParityIter {
                i: self.i + 1,
                ..self
            }
        } else {
            let h = prototype_of(self.code);
            let after = Place {
                row: self.row,
                col: self.col,
                layer: self.layer + 1,
            };
            start_at(self.code, block_from(&h, after))
        }
    }

    // The size of its blocks, and the column of the edge at which it stands; none where its numbers are no edge's.
    fn column(self) -> Option<(usize, usize)>
        ensures { result ≡ column_at self }
    {
        let Ok(
            CodeParams {
                submatrix_size: m,
                ..
            },
        ) = params(self.code)
        else {
            return None;
        };
        if self.row >= 4 || self.col >= 11 || self.layer >= 3 || self.i >= m {
            return None;
        }
        let h = prototype_of(self.code);
        match Block::from(h[self.layer][self.row][self.col]) {
            Block::Ends => None,
            Block::Empty => None,
            Block::Identity(v) => Some((m, identity_column(m, v, self.i))),
            Block::Permutation(v) => {
                let phi = phi_of(self.code);
                Some((m, permutation_column(m, &THETA_K, &phi, v, self.i)))
            }
        }
    }
}

impl Iterator for ParityIter {
    type Item = (Check, Bit);

    ghost next_gives = { Steps };

    ghost remaining = { item_count remaining };

    // An edge, or that there is none; a finished walk stays so.
    fn next(&mut self) -> Option<(Check, Bit)> {
        let (m, x) = self.column()?;
        let edge = (Check(self.row * m + self.i), Bit(self.col * m + x));
        *self = self.moved(m);
        Some(edge)
    }
}
