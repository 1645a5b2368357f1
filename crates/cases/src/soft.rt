// Confidences as the list holds them: a byte, the value modulo 256.
ghost use Rattle.std.specs.Prelude.{map, ◌≡◌};
ghost use Rattle.maths.specs.Tests.{Agrees};
ghost use Rattle.cases.specs.Cases.{signed, softened};

// Slices of different lengths stay as they are.
pub fn soften(bytes: &[u8], soft: &mut [i8])
    ensures { soft.new ≡ softened bytes.now soft.old }
{
    if soft.len() == bytes.len() {
        for (i, x) in bytes.iter().enumerate() {
            soft[i] = x.cast_signed();
        }
    }
}

fn stands_for(byte: u8, confidence: i8) -> bool
    ensures { Agrees result (confidence ≡ signed byte) }
{
    byte.cast_signed() == confidence
}

// Whether the list holds these confidences.
pub fn same_soft(soft: &[i8], bytes: &[u8]) -> bool
    ensures { Agrees result (soft.now ≡ map signed bytes.now) }
{
    soft.len() == bytes.len() && soft.iter().zip(bytes).all(|(&s, &x)| stands_for(x, s))
}
