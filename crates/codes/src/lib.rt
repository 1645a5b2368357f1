// The codes: their parameters and tables, and why a call is refused. (Rust: codes/mod.rs)

#![tactic(auto)]

ghost use Rattle.std.specs.Prelude.{◌≡◌};
ghost use Rattle.codes.specs.Codes.{number_of, code_at, numbers, row_of, params_at, params_by, params_of, tables_of, prototype_of, phi_of};

pub mod parity_iter;
pub mod refusal;

use refusal::Refusal;
use tables::{phi_at, prototype_at};

// How many codes there are: TC128, TC256, TC512, TM1280, TM1536, TM2048, TM5120, TM6144, TM8192, numbered from 0.
pub const CODES: usize = 9;

// No code has more bits sent, more bits, those not sent included, or more checks, or asks for longer buffers.
pub const MAX_SENT: usize = 8192;

pub const MAX_SENT_BYTES: usize = 1024;

pub const MAX_BITS: usize = 10240;

pub const MAX_BYTES: usize = 1280;

pub const MAX_CHECKS: usize = 6144;

pub const MAX_SOFT_WORKING: usize = 83968;

pub const MAX_SIGNS: usize = 768;

// No TC code has more checks. Room for all takes such a frame longer to clear, so the decoders make it of one of two sizes.
pub const FEW_CHECKS: usize = 256;

// The numbers of a code; by Default those of none, all zeros.
#[derive(Clone, Copy, Debug, Default, PartialEq, Eq)]
pub struct CodeParams {
    // Bits sent.
    pub n: usize,
    // Bits of data.
    pub k: usize,
    // Parity bits that are not sent.
    pub punctured_bits: usize,
    // Side of a block of the parity check matrix.
    pub submatrix_size: usize,
    // Side of a circulant of the generator.
    pub circulant_size: usize,
    // Edges of the parity check matrix.
    pub paritycheck_sum: u32,
    // Lengths of what a caller lends.
    pub decode_bf_working_len: usize,
    pub decode_ms_working_len: usize,
    pub decode_ms_working_u8_len: usize,
    pub output_len: usize,
}

const TC128_PARAMS: CodeParams = CodeParams {
    n: 128,
    k: 64,
    punctured_bits: 0,
    submatrix_size: 16,
    circulant_size: 16,
    paritycheck_sum: 512,
    decode_bf_working_len: 128,
    decode_ms_working_len: 1280,
    decode_ms_working_u8_len: 8,
    output_len: 16,
};

const TC256_PARAMS: CodeParams = CodeParams {
    n: 256,
    k: 128,
    punctured_bits: 0,
    submatrix_size: 32,
    circulant_size: 32,
    paritycheck_sum: 1024,
    decode_bf_working_len: 256,
    decode_ms_working_len: 2560,
    decode_ms_working_u8_len: 16,
    output_len: 32,
};

const TC512_PARAMS: CodeParams = CodeParams {
    n: 512,
    k: 256,
    punctured_bits: 0,
    submatrix_size: 64,
    circulant_size: 64,
    paritycheck_sum: 2048,
    decode_bf_working_len: 512,
    decode_ms_working_len: 5120,
    decode_ms_working_u8_len: 32,
    output_len: 64,
};

const TM1280_PARAMS: CodeParams = CodeParams {
    n: 1280,
    k: 1024,
    punctured_bits: 128,
    submatrix_size: 128,
    circulant_size: 32,
    paritycheck_sum: 4992,
    decode_bf_working_len: 1408,
    decode_ms_working_len: 12160,
    decode_ms_working_u8_len: 48,
    output_len: 176,
};

const TM1536_PARAMS: CodeParams = CodeParams {
    n: 1536,
    k: 1024,
    punctured_bits: 256,
    submatrix_size: 256,
    circulant_size: 64,
    paritycheck_sum: 5888,
    decode_bf_working_len: 1792,
    decode_ms_working_len: 15104,
    decode_ms_working_u8_len: 96,
    output_len: 224,
};

const TM2048_PARAMS: CodeParams = CodeParams {
    n: 2048,
    k: 1024,
    punctured_bits: 512,
    submatrix_size: 512,
    circulant_size: 128,
    paritycheck_sum: 7680,
    decode_bf_working_len: 2560,
    decode_ms_working_len: 20992,
    decode_ms_working_u8_len: 192,
    output_len: 320,
};

const TM5120_PARAMS: CodeParams = CodeParams {
    n: 5120,
    k: 4096,
    punctured_bits: 512,
    submatrix_size: 512,
    circulant_size: 128,
    paritycheck_sum: 19968,
    decode_bf_working_len: 5632,
    decode_ms_working_len: 48640,
    decode_ms_working_u8_len: 192,
    output_len: 704,
};

const TM6144_PARAMS: CodeParams = CodeParams {
    n: 6144,
    k: 4096,
    punctured_bits: 1024,
    submatrix_size: 1024,
    circulant_size: 256,
    paritycheck_sum: 23552,
    decode_bf_working_len: 7168,
    decode_ms_working_len: 60416,
    decode_ms_working_u8_len: 384,
    output_len: 896,
};

const TM8192_PARAMS: CodeParams = CodeParams {
    n: 8192,
    k: 4096,
    punctured_bits: 2048,
    submatrix_size: 2048,
    circulant_size: 512,
    paritycheck_sum: 30720,
    decode_bf_working_len: 10240,
    decode_ms_working_len: 83968,
    decode_ms_working_u8_len: 768,
    output_len: 1280,
};

impl CodeParams {
    // The ten numbers, in the order of the fields.
    pub fn numbers(self) -> [usize; 10]
        ensures { result ≡ numbers self }
    {
        [
            self.n,
            self.k,
            self.punctured_bits,
            self.submatrix_size,
            self.circulant_size,
            self.paritycheck_sum as usize, // a u32 as in the Rust, which From does not make a usize
            self.decode_bf_working_len,
            self.decode_ms_working_len,
            self.decode_ms_working_u8_len,
            self.output_len,
        ]
    }
}

// Which prototype and which table phi a code's matrix is made of.
#[derive(Clone, Copy, Debug, PartialEq, Eq)]
pub struct MatrixTables {
    pub prototype: usize,
    pub phi: usize,
}

const TABLES: [MatrixTables; CODES] = [
    MatrixTables {
        prototype: 0,
        phi: 0,
    },
    MatrixTables {
        prototype: 1,
        phi: 0,
    },
    MatrixTables {
        prototype: 2,
        phi: 0,
    },
    MatrixTables {
        prototype: 5,
        phi: 0,
    },
    MatrixTables {
        prototype: 4,
        phi: 1,
    },
    MatrixTables {
        prototype: 3,
        phi: 2,
    },
    MatrixTables {
        prototype: 5,
        phi: 2,
    },
    MatrixTables {
        prototype: 4,
        phi: 3,
    },
    MatrixTables {
        prototype: 3,
        phi: 4,
    },
];

// A code, by its place among the codes.
#[derive(Clone, Copy, Debug, PartialEq, Eq)]
pub enum Code {
    TC128,
    TC256,
    TC512,
    TM1280,
    TM1536,
    TM2048,
    TM5120,
    TM6144,
    TM8192,
}

impl TryFrom<usize> for Code {
    type Error = Refusal;

    ghost try_from_gives = { λ number r. r ≡ code_at number };

    fn try_from(number: usize) -> Result<Self, Refusal> {
        match number {
            0 => Ok(Code::TC128),
            1 => Ok(Code::TC256),
            2 => Ok(Code::TC512),
            3 => Ok(Code::TM1280),
            4 => Ok(Code::TM1536),
            5 => Ok(Code::TM2048),
            6 => Ok(Code::TM5120),
            7 => Ok(Code::TM6144),
            8 => Ok(Code::TM8192),
            _ => Err(Refusal::UnknownCode),
        }
    }
}

impl Code {
    #[tactic(auto, unfolding(crate::specs::Codes::rows))]
    pub fn params(self) -> CodeParams
        ensures { result ≡ row_of (number_of self) }
    {
        match self {
            Code::TC128 => TC128_PARAMS,
            Code::TC256 => TC256_PARAMS,
            Code::TC512 => TC512_PARAMS,
            Code::TM1280 => TM1280_PARAMS,
            Code::TM1536 => TM1536_PARAMS,
            Code::TM2048 => TM2048_PARAMS,
            Code::TM5120 => TM5120_PARAMS,
            Code::TM6144 => TM6144_PARAMS,
            Code::TM8192 => TM8192_PARAMS,
        }
    }
}

// The tables of a code; the first ones where it is not known, which `prototype_of` and `phi_of` promise of any number.
fn tables_of(code: usize) -> MatrixTables
    ensures { result ≡ tables_of code }
{
    if code < CODES {
        TABLES[code]
    } else {
        TABLES[0]
    }
}

pub fn prototype_of(code: usize) -> [[[u8; 11]; 4]; 3]
    ensures { result ≡ prototype_of code }
{
    prototype_at(tables_of(code).prototype)
}

pub fn phi_of(code: usize) -> [[u16; 26]; 4]
    ensures { result ≡ phi_of code }
{
    phi_at(tables_of(code).phi)
}

// The parameters of a code by its number. `unwrap_or_default` makes zeros of a refusal.
pub fn params(code: usize) -> Result<CodeParams, Refusal>
    ensures found { result ≡ params_at code }
    ensures told { params_by result ≡ params_of code }
{
    Ok(Code::try_from(code)?.params())
}
