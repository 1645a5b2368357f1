// A byte for each check: its first bit is 1 where the sign product is negative, its second where the parity of the marginals' hard bits is odd.
ghost use Rattle.std.specs.Prelude.{◌≡◌};
ghost use Rattle.min_sum.specs.Working.{negative_in, mark_of, all_even};

// What an edge turns in its check's byte.
pub fn mark(negative: bool, odd: bool) -> u8
    ensures { result ≡ mark_of negative odd }
{
    u8::from(negative) + 2 * u8::from(odd)
}

pub fn negative(mark: u8) -> bool
    ensures { result ≡ negative_in mark }
{
    mark % 2 == 1
}

// Whether every check is even. Their bytes are joined, many in one step: `all` would stop at the first that is odd, and look at one in a step.
pub fn all_even(marks: &[u8]) -> bool
    ensures { result ≡ all_even marks.now }
{
    let mut joined: u8 = 0;
    for mark in marks {
        joined |= *mark;
    }
    joined / 2 % 2 == 0
}
