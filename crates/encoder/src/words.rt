// The words of a generator as bytes: a row is then added byte for byte, many of them at a time.
ghost use Rattle.std.specs.Prelude.{◌≡◌, ◌*◌, length};
ghost use Rattle.maths.specs.Bytes.{pack};
ghost use Rattle.encoder.specs.Rows.{words_bit};

// Puts the words, one after the other, the highest byte of each first.
pub(crate) fn put_words(g: &[u64], rows: &mut [u8])
    requires { length rows.old ≡ length g.now * 8 }
    ensures { rows.new ≡ pack (words_bit g.now) (length g.now * 8) }
{
    for (i, word) in g.iter().enumerate() {
        rows[i * 8..i * 8 + 8].copy_from_slice(&word.to_be_bytes());
    }
}
