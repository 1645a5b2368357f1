// The parity part of a codeword.
ghost use Rattle.std.specs.Prelude.{◌≡◌, ◌*◌, ◌/◌, ◌-◌, ◌++◌, ◌≤◌, ◌<◌, length, take};
ghost use Rattle.maths.specs.Bits.{bit_at};
ghost use Rattle.maths.specs.Bytes.{pack};
ghost use Rattle.codes.specs.Frames.{parity as parity_bit, generator_bit};
ghost use Rattle.encoder.specs.Rows.{added, row_bit, rows_at, blocks_turned};
ghost use Rattle.encoder.specs.Sizes.{Laid, Parts};

use crate::rotation::rotate_block;
use crate::words::put_words;
use codes::CodeParams;

// Bit i of a byte string, the highest of a byte first. (By hand: no method of slices counts bits.)
fn bit_at(s: &[u8], i: usize) -> u8
    requires { i < length s.now * 8 }
    ensures { result ≡ bit_at s.now i }
{
    (s[i / 8] >> (7 - i % 8)) & 1
}

// Adds a row to the parity bytes.
fn add_row(parity: &mut [u8], row: &[u8])
    requires { length row.now ≡ length parity.old }
    ensures { parity.new ≡ added parity.old (bit_at row.now) }
{
    for (i, x) in row.iter().enumerate() {
        parity[i] ^= *x;
    }
}

// Adds the rows of the data bits c * b + o that are set.
fn add_rows(parity: &mut [u8], data: &[u8], rows: &[u8], b: usize, o: usize)
    requires { (o < b) × Laid (length «data».now) (length parity.old) (length rows.now) b }
    ensures { parity.new ≡ added parity.old (rows_at b (row_bit (length parity.old) rows.now) (bit_at «data».now) o (length «data».now * 8 / b)) }
{
    let len = parity.len();
    // By index: chunks_exact was tried, and `encode` of the TM codes took a fifth longer.
    for c in 0..data.len() * 8 / b {
        if bit_at(data, c * b + o) == 1 {
            add_row(parity, &rows[c * len..c * len + len]);
        }
    }
}

// Rotates each of the blocks of len bytes.
fn rotate_blocks(parity: &mut [u8], len: usize)
    requires { (1 ≤ len) × (length parity.old ≡ length parity.old / len * len) }
    ensures { parity.new ≡ pack (blocks_turned (len * 8) (bit_at parity.old)) (length parity.old) }
{
    // By index: of the bytes that chunks_exact_mut lent a proof knows nothing afterwards.
    for i in 0..parity.len() / len {
        rotate_block(&mut parity[i * len..i * len + len]);
    }
}

// The parity of the data: each offset adds its rows, and the left turn of every block stands for the right turn of the rows to come.
fn fill_parity(parity: &mut [u8], data: &[u8], rows: &[u8], b: usize)
    requires { Laid (length «data».now) (length parity.old) (length rows.now) b }
    ensures { parity.new ≡ pack (parity_bit b (length «data».now * 8) (row_bit (length parity.old) rows.now) (bit_at «data».now)) (length parity.old) }
{
    parity.fill(0);
    // By number: an offset picks the data bits that add rows.
    for o in 0..b {
        add_rows(parity, data, rows, b, o);
        rotate_blocks(parity, b / 8);
    }
}

// Puts the parity bits behind the data bits, by a generator of WORDS words, which has BYTES bytes: a computed size cannot be asked for.
pub(crate) fn encode_parity<const WORDS: usize, const BYTES: usize>(
    codeword: &mut [u8],
    g: &[u64; WORDS],
    row: CodeParams,
)
    requires bytes { BYTES ≡ WORDS * 8 }
    requires parts { Parts codeword.old g.now row.k (row.n - row.k) row.circulant_size }
    ensures { let message = take (row.k / 8) codeword.old in codeword.new ≡ message ++ pack (parity_bit row.circulant_size row.k (generator_bit ((row.n - row.k) / 64) g.now) (bit_at message)) ((row.n - row.k) / 8) }
{
    let mut rows = [0; BYTES];
    put_words(g, &mut rows);
    let (data, parity) = codeword.split_at_mut(row.k / 8);
    fill_parity(parity, data, &rows, row.circulant_size);
}
