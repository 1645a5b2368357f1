// Byte strings as one byte for a bit, the highest bit of a byte first.

#![tactic(auto)]

ghost use Rattle.std.specs.Prelude.{◌≡◌, ◌+◌, ◌≤◌, length, get_or};
ghost use Rattle.std.proofs.lemmas.List.Edits.{sets};
ghost use Rattle.maths.specs.Lists.{largest_of};
ghost use Rattle.maths.specs.Bytes.{byte};
ghost use Rattle.bits.specs.Packed.{whole_bytes, eight, unpacked, packed};

fn unpack_byte(x: u8, bits: &mut [u8], v: usize)
    requires { v + 8 ≤ length bits.old }
    ensures { bits.new ≡ sets bits.old v (eight x) }
{
    bits[v] = x / 128 % 2;
    bits[v + 1] = x / 64 % 2;
    bits[v + 2] = x / 32 % 2;
    bits[v + 3] = x / 16 % 2;
    bits[v + 4] = x / 8 % 2;
    bits[v + 5] = x / 4 % 2;
    bits[v + 6] = x / 2 % 2;
    bits[v + 7] = x % 2;
}

// The bits of as many bytes as there is room for; the rest of bits stays as it is.
pub fn unpack(bytes: &[u8], bits: &mut [u8])
    ensures { bits.new ≡ unpacked bytes.now bits.old }
{
    let n = bytes.len().min(bits.len() / 8);
    for (i, byte) in bytes[..n].iter().enumerate() {
        unpack_byte(*byte, bits, 8 * i);
    }
}

// The byte of the bits from v on.
fn pack_byte(bits: &[u8], v: usize) -> u8
    requires { v + 8 ≤ length bits.now }
    ensures { result ≡ byte (λ t. get_or bits.now (v + t) 0) 0 }
{
    bits[v] % 2 * 128
        + bits[v + 1] % 2 * 64
        + bits[v + 2] % 2 * 32
        + bits[v + 3] % 2 * 16
        + bits[v + 4] % 2 * 8
        + bits[v + 5] % 2 * 4
        + bits[v + 6] % 2 * 2
        + bits[v + 7] % 2
}

// As many bytes as there is room for, of bits that are taken modulo 2; the rest of bytes stays as it is.
pub fn pack(bits: &[u8], bytes: &mut [u8])
    ensures { bytes.new ≡ packed bits.now bytes.old }
{
    let n = bytes.len().min(bits.len() / 8);
    for (i, byte) in bytes[..n].iter_mut().enumerate() {
        *byte = pack_byte(bits, 8 * i);
    }
}

// The largest byte; 0 where there is none.
// (By a loop: of the same by `fold` the check finds no proof, and `max` of an iterator answers an Option.)
pub fn largest(s: &[u8]) -> u8
    ensures { result ≡ largest_of s.now }
{
    let mut top: u8 = 0;
    for x in s {
        top = top.max(*x);
    }
    top
}
