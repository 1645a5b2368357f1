// The prototypes of the parity check matrices, and the numbers of the permutations. (Rust: codes/compact_parity_checks.rs)
//
// A byte stands for an M by M block: HZ none, HI | n the identity turned right by n, HP | n the permutation n + 1 of CCSDS 131.0-B.
// A prototype is three layers, added modulo 2, of four rows of eleven blocks.

pub const HZ: u8 = 0 << 6;

pub const HI: u8 = 1 << 6;

pub const HP: u8 = 2 << 6;

pub const TC128_H: [[[u8; 11]; 4]; 3] = [
    [
        [HI, HI | 2, HI | 14, HI | 6, HZ, HI, HI | 13, HI, HZ, HZ, HZ],
        [HI | 6, HI, HI, HI | 1, HI, HZ, HI, HI | 7, HZ, HZ, HZ],
        [
            HI | 4,
            HI | 1,
            HI,
            HI | 14,
            HI | 11,
            HI,
            HZ,
            HI | 3,
            HZ,
            HZ,
            HZ,
        ],
        [HI, HI | 1, HI | 9, HI, HI | 14, HI | 1, HI, HZ, HZ, HZ, HZ],
    ],
    [
        [HI | 7, HZ, HZ, HZ, HZ, HZ, HZ, HZ, HZ, HZ, HZ],
        [HZ, HI | 15, HZ, HZ, HZ, HZ, HZ, HZ, HZ, HZ, HZ],
        [HZ, HZ, HI | 15, HZ, HZ, HZ, HZ, HZ, HZ, HZ, HZ],
        [HZ, HZ, HZ, HI | 13, HZ, HZ, HZ, HZ, HZ, HZ, HZ],
    ],
    [
        [HZ, HZ, HZ, HZ, HZ, HZ, HZ, HZ, HZ, HZ, HZ],
        [HZ, HZ, HZ, HZ, HZ, HZ, HZ, HZ, HZ, HZ, HZ],
        [HZ, HZ, HZ, HZ, HZ, HZ, HZ, HZ, HZ, HZ, HZ],
        [HZ, HZ, HZ, HZ, HZ, HZ, HZ, HZ, HZ, HZ, HZ],
    ],
];

pub const TC256_H: [[[u8; 11]; 4]; 3] = [
    [
        [
            HI,
            HI | 15,
            HI | 25,
            HI,
            HZ,
            HI | 20,
            HI | 12,
            HI,
            HZ,
            HZ,
            HZ,
        ],
        [
            HI | 28,
            HI,
            HI | 29,
            HI | 24,
            HI,
            HZ,
            HI | 1,
            HI | 20,
            HZ,
            HZ,
            HZ,
        ],
        [HI | 8, HI, HI, HI | 1, HI | 29, HI, HZ, HI | 21, HZ, HZ, HZ],
        [
            HI | 18,
            HI | 30,
            HI,
            HI,
            HI | 25,
            HI | 26,
            HI,
            HZ,
            HZ,
            HZ,
            HZ,
        ],
    ],
    [
        [HI | 31, HZ, HZ, HZ, HZ, HZ, HZ, HZ, HZ, HZ, HZ],
        [HZ, HI | 30, HZ, HZ, HZ, HZ, HZ, HZ, HZ, HZ, HZ],
        [HZ, HZ, HI | 28, HZ, HZ, HZ, HZ, HZ, HZ, HZ, HZ],
        [HZ, HZ, HZ, HI | 30, HZ, HZ, HZ, HZ, HZ, HZ, HZ],
    ],
    [
        [HZ, HZ, HZ, HZ, HZ, HZ, HZ, HZ, HZ, HZ, HZ],
        [HZ, HZ, HZ, HZ, HZ, HZ, HZ, HZ, HZ, HZ, HZ],
        [HZ, HZ, HZ, HZ, HZ, HZ, HZ, HZ, HZ, HZ, HZ],
        [HZ, HZ, HZ, HZ, HZ, HZ, HZ, HZ, HZ, HZ, HZ],
    ],
];

pub const TC512_H: [[[u8; 11]; 4]; 3] = [
    [
        [
            HI,
            HI | 30,
            HI | 50,
            HI | 25,
            HZ,
            HI | 43,
            HI | 62,
            HI,
            HZ,
            HZ,
            HZ,
        ],
        [
            HI | 56,
            HI,
            HI | 50,
            HI | 23,
            HI,
            HZ,
            HI | 37,
            HI | 26,
            HZ,
            HZ,
            HZ,
        ],
        [
            HI | 16,
            HI,
            HI,
            HI | 27,
            HI | 56,
            HI,
            HZ,
            HI | 43,
            HZ,
            HZ,
            HZ,
        ],
        [
            HI | 35,
            HI | 56,
            HI | 62,
            HI,
            HI | 58,
            HI | 3,
            HI,
            HZ,
            HZ,
            HZ,
            HZ,
        ],
    ],
    [
        [HI | 63, HZ, HZ, HZ, HZ, HZ, HZ, HZ, HZ, HZ, HZ],
        [HZ, HI | 61, HZ, HZ, HZ, HZ, HZ, HZ, HZ, HZ, HZ],
        [HZ, HZ, HI | 55, HZ, HZ, HZ, HZ, HZ, HZ, HZ, HZ],
        [HZ, HZ, HZ, HI | 11, HZ, HZ, HZ, HZ, HZ, HZ, HZ],
    ],
    [
        [HZ, HZ, HZ, HZ, HZ, HZ, HZ, HZ, HZ, HZ, HZ],
        [HZ, HZ, HZ, HZ, HZ, HZ, HZ, HZ, HZ, HZ, HZ],
        [HZ, HZ, HZ, HZ, HZ, HZ, HZ, HZ, HZ, HZ, HZ],
        [HZ, HZ, HZ, HZ, HZ, HZ, HZ, HZ, HZ, HZ, HZ],
    ],
];

pub const TM_R12_H: [[[u8; 11]; 4]; 3] = [
    [
        [HZ, HZ, HI, HZ, HI, HZ, HZ, HZ, HZ, HZ, HZ],
        [HI, HI, HZ, HI, HP | 1, HZ, HZ, HZ, HZ, HZ, HZ],
        [HI, HP | 4, HZ, HP | 6, HI, HZ, HZ, HZ, HZ, HZ, HZ],
        [HZ, HZ, HZ, HZ, HZ, HZ, HZ, HZ, HZ, HZ, HZ],
    ],
    [
        [HZ, HZ, HZ, HZ, HP, HZ, HZ, HZ, HZ, HZ, HZ],
        [HZ, HZ, HZ, HZ, HP | 2, HZ, HZ, HZ, HZ, HZ, HZ],
        [HZ, HP | 5, HZ, HP | 7, HZ, HZ, HZ, HZ, HZ, HZ, HZ],
        [HZ, HZ, HZ, HZ, HZ, HZ, HZ, HZ, HZ, HZ, HZ],
    ],
    [
        [HZ, HZ, HZ, HZ, HZ, HZ, HZ, HZ, HZ, HZ, HZ],
        [HZ, HZ, HZ, HZ, HP | 3, HZ, HZ, HZ, HZ, HZ, HZ],
        [HZ, HZ, HZ, HZ, HZ, HZ, HZ, HZ, HZ, HZ, HZ],
        [HZ, HZ, HZ, HZ, HZ, HZ, HZ, HZ, HZ, HZ, HZ],
    ],
];

pub const TM_R23_H: [[[u8; 11]; 4]; 3] = [
    [
        [HZ, HZ, HZ, HZ, HI, HZ, HI, HZ, HZ, HZ, HZ],
        [HP | 8, HI, HI, HI, HZ, HI, HP | 1, HZ, HZ, HZ, HZ],
        [HI, HP | 11, HI, HP | 4, HZ, HP | 6, HI, HZ, HZ, HZ, HZ],
        [HZ, HZ, HZ, HZ, HZ, HZ, HZ, HZ, HZ, HZ, HZ],
    ],
    [
        [HZ, HZ, HZ, HZ, HZ, HZ, HP, HZ, HZ, HZ, HZ],
        [HP | 9, HZ, HZ, HZ, HZ, HZ, HP | 2, HZ, HZ, HZ, HZ],
        [HZ, HP | 12, HZ, HP | 5, HZ, HP | 7, HZ, HZ, HZ, HZ, HZ],
        [HZ, HZ, HZ, HZ, HZ, HZ, HZ, HZ, HZ, HZ, HZ],
    ],
    [
        [HZ, HZ, HZ, HZ, HZ, HZ, HZ, HZ, HZ, HZ, HZ],
        [HP | 10, HZ, HZ, HZ, HZ, HZ, HP | 3, HZ, HZ, HZ, HZ],
        [HZ, HP | 13, HZ, HZ, HZ, HZ, HZ, HZ, HZ, HZ, HZ],
        [HZ, HZ, HZ, HZ, HZ, HZ, HZ, HZ, HZ, HZ, HZ],
    ],
];

pub const TM_R45_H: [[[u8; 11]; 4]; 3] = [
    [
        [HZ, HZ, HZ, HZ, HZ, HZ, HZ, HZ, HI, HZ, HI],
        [HP | 20, HI, HP | 14, HI, HP | 8, HI, HI, HI, HZ, HI, HP | 1],
        [
            HI,
            HP | 23,
            HI,
            HP | 17,
            HI,
            HP | 11,
            HI,
            HP | 4,
            HZ,
            HP | 6,
            HI,
        ],
        [HZ, HZ, HZ, HZ, HZ, HZ, HZ, HZ, HZ, HZ, HZ],
    ],
    [
        [HZ, HZ, HZ, HZ, HZ, HZ, HZ, HZ, HZ, HZ, HP],
        [HP | 21, HZ, HP | 15, HZ, HP | 9, HZ, HZ, HZ, HZ, HZ, HP | 2],
        [
            HZ,
            HP | 24,
            HZ,
            HP | 18,
            HZ,
            HP | 12,
            HZ,
            HP | 5,
            HZ,
            HP | 7,
            HZ,
        ],
        [HZ, HZ, HZ, HZ, HZ, HZ, HZ, HZ, HZ, HZ, HZ],
    ],
    [
        [HZ, HZ, HZ, HZ, HZ, HZ, HZ, HZ, HZ, HZ, HZ],
        [
            HP | 22,
            HZ,
            HP | 16,
            HZ,
            HP | 10,
            HZ,
            HZ,
            HZ,
            HZ,
            HZ,
            HP | 3,
        ],
        [HZ, HP | 25, HZ, HP | 19, HZ, HP | 13, HZ, HZ, HZ, HZ, HZ],
        [HZ, HZ, HZ, HZ, HZ, HZ, HZ, HZ, HZ, HZ, HZ],
    ],
];

// How many prototypes there are; by prototype, layer, row, column.
pub const PROTOTYPE_TABLES: usize = 6;

pub const PROTOTYPES: [[[[u8; 11]; 4]; 3]; PROTOTYPE_TABLES] = [
    TC128_H, TC256_H, TC512_H, TM_R12_H, TM_R23_H, TM_R45_H,
];

pub const THETA_K: [u8; 26] = [
    3, 0, 1, 2, 2, 3, 0, 1, 0, 1, 2, 0, 2, 3, 0, 1, 2, 0, 1, 2, 0, 1, 2, 1, 2, 3,
];

pub const PHI_J_K_M128: [[u16; 26]; 4] = [
    [
        1, 22, 0, 26, 0, 10, 5, 18, 3, 22, 3, 8, 25, 25, 2, 27, 7, 7, 15, 10, 4, 19, 7, 9, 26, 17,
    ],
    [
        0, 27, 30, 28, 7, 1, 8, 20, 26, 24, 4, 12, 23, 15, 15, 22, 31, 3, 29, 21, 2, 5, 11, 26, 9,
        17,
    ],
    [
        0, 12, 30, 18, 10, 16, 13, 9, 7, 15, 16, 18, 4, 23, 5, 3, 29, 11, 4, 8, 2, 11, 11, 3, 15,
        13,
    ],
    [
        0, 13, 19, 14, 15, 20, 17, 4, 4, 11, 17, 20, 8, 22, 19, 15, 5, 21, 17, 9, 20, 18, 31, 13,
        2, 18,
    ],
];

pub const PHI_J_K_M256: [[u16; 26]; 4] = [
    [
        59, 18, 52, 23, 11, 7, 22, 25, 27, 30, 43, 14, 46, 62, 44, 12, 38, 47, 1, 52, 61, 10, 55,
        7, 12, 2,
    ],
    [
        0, 32, 21, 36, 30, 29, 44, 29, 39, 14, 22, 15, 48, 55, 39, 11, 1, 50, 40, 62, 27, 38, 40,
        15, 11, 18,
    ],
    [
        0, 46, 45, 27, 48, 37, 41, 13, 9, 49, 36, 10, 11, 18, 54, 40, 27, 35, 25, 46, 24, 33, 18,
        37, 35, 21,
    ],
    [
        0, 44, 51, 12, 15, 12, 4, 7, 2, 30, 53, 23, 29, 37, 42, 48, 4, 10, 18, 56, 9, 11, 23, 8, 7,
        24,
    ],
];

pub const PHI_J_K_M512: [[u16; 26]; 4] = [
    [
        16, 103, 105, 0, 50, 29, 115, 30, 92, 78, 70, 66, 39, 84, 79, 70, 29, 32, 45, 113, 86, 1,
        42, 118, 33, 126,
    ],
    [
        0, 53, 74, 45, 47, 0, 59, 102, 25, 3, 88, 65, 62, 68, 91, 70, 115, 31, 121, 45, 56, 54,
        108, 14, 30, 116,
    ],
    [
        0, 8, 119, 89, 31, 122, 1, 69, 92, 47, 11, 31, 19, 66, 49, 81, 96, 38, 83, 42, 58, 24, 25,
        92, 38, 120,
    ],
    [
        0, 35, 97, 112, 64, 93, 99, 94, 103, 91, 3, 6, 39, 113, 92, 119, 74, 73, 116, 31, 127, 98,
        23, 38, 18, 62,
    ],
];

pub const PHI_J_K_M1024: [[u16; 26]; 4] = [
    [
        160, 241, 185, 251, 209, 103, 90, 184, 248, 12, 111, 66, 173, 42, 157, 174, 104, 144, 43,
        181, 250, 202, 68, 177, 170, 89,
    ],
    [
        0, 182, 249, 65, 70, 141, 237, 77, 55, 12, 227, 42, 52, 243, 179, 250, 247, 164, 17, 31,
        149, 105, 183, 153, 177, 19,
    ],
    [
        0, 35, 167, 214, 84, 206, 122, 67, 147, 54, 23, 93, 20, 197, 46, 162, 101, 76, 78, 253,
        124, 143, 63, 41, 214, 70,
    ],
    [
        0, 162, 7, 31, 164, 11, 237, 125, 133, 99, 105, 17, 97, 91, 211, 128, 82, 115, 248, 62, 26,
        140, 121, 12, 41, 249,
    ],
];

pub const PHI_J_K_M2048: [[u16; 26]; 4] = [
    [
        108, 126, 238, 481, 96, 28, 59, 225, 323, 28, 386, 305, 34, 510, 147, 199, 347, 391, 165,
        414, 97, 158, 86, 168, 506, 489,
    ],
    [
        0, 375, 436, 350, 260, 84, 318, 382, 169, 213, 67, 313, 242, 188, 1, 306, 397, 80, 33, 7,
        447, 336, 424, 134, 152, 492,
    ],
    [
        0, 219, 16, 263, 415, 403, 184, 279, 198, 307, 432, 240, 454, 294, 479, 289, 373, 104, 141,
        270, 439, 333, 399, 14, 277, 412,
    ],
    [
        0, 312, 503, 388, 48, 7, 185, 328, 254, 202, 285, 11, 168, 127, 8, 437, 475, 85, 419, 459,
        468, 209, 311, 211, 510, 320,
    ],
];

// How many tables phi there are; by block size, quarter, permutation.
pub const PHI_TABLES: usize = 5;

pub const PHI_J_K: [[[u16; 26]; 4]; PHI_TABLES] = [
    PHI_J_K_M128,
    PHI_J_K_M256,
    PHI_J_K_M512,
    PHI_J_K_M1024,
    PHI_J_K_M2048,
];
