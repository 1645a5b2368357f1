// The constants that the codes are made of: prototypes and permutations of the parity check matrices, and generators. (Rust: the two other files of codes/)

#![tactic(auto)]

ghost use Rattle.std.specs.Prelude.{◌≡◌, ◌<◌, length, get_or};
ghost use Rattle.tables.specs.Choice.{listed, table_at};
ghost use Rattle.tables.specs.Tables.{prototypes, phis};

pub mod compact_generators;
pub mod compact_parity_checks;

use compact_parity_checks::{PHI_J_K, PROTOTYPES};

// Table number t; the first where there are not so many.
fn table_at<T: Copy>(tables: &[T], t: usize) -> T
    requires { 0 < length tables.now }
    ensures { (none : T) → result ≡ get_or tables.now (listed t (length tables.now)) none }
{
    if t < tables.len() {
        tables[t]
    } else {
        tables[0]
    }
}

// Prototype number t.
pub fn prototype_at(t: usize) -> [[[u8; 11]; 4]; 3]
    ensures { result ≡ table_at prototypes t }
{
    table_at(&PROTOTYPES, t)
}

// Table number t of phi.
pub fn phi_at(t: usize) -> [[u16; 26]; 4]
    ensures { result ≡ table_at phis t }
{
    table_at(&PHI_J_K, t)
}
