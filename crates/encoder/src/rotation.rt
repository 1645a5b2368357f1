// The rotation of one block of bytes.
ghost use Rattle.std.specs.Prelude.{◌≡◌, ◌≤◌, length};
ghost use Rattle.encoder.specs.Rotation.{rotated};

// Rotates a block left by one bit, from the last byte to the first.
fn rotate_bytes(block: &mut [u8])
    requires { 1 ≤ length block.old }
    ensures { block.new ≡ rotated block.old 0 (length block.old) }
{
    let mut carry = block[0] >> 7;
    // By index: of the bytes that iter_mut().rev() lent a proof knows nothing afterwards.
    for i in (0..block.len()).rev() {
        let x = block[i];
        block[i] = (x << 1) | carry;
        carry = x >> 7;
    }
}

// The same. The lengths of short blocks stand apart: a loop whose length the compiler knows becomes straight lines, over the whole block at once where that pays.
pub(crate) fn rotate_block(block: &mut [u8])
    requires { 1 ≤ length block.old }
    ensures { block.new ≡ rotated block.old 0 (length block.old) }
{
    match block.len() {
        2 => rotate_bytes(&mut block[..2]),
        4 => rotate_bytes(&mut block[..4]),
        8 => rotate_bytes(&mut block[..8]),
        16 => rotate_bytes(&mut block[..16]),
        32 => rotate_bytes(&mut block[..32]),
        _ => rotate_bytes(block),
    }
}
