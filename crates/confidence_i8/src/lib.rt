// Numbers of 8 bits that stand for confidences, and what an edge makes of them. (Rust: the trait DecodeFrom for i8, and the formulas of decode_ms)

#![tactic(auto, using(min_sum::proofs::Signed::numbers), unfolding(min_sum::specs::Soft::add, min_sum::specs::Soft::subtract, min_sum::specs::Soft::negate, min_sum::specs::Soft::magnitude, min_sum::specs::Soft::clamp, min_sum::specs::Soft::less))]

ghost use Rattle.std.specs.Prelude.{◌≡◌};
ghost use Rattle.min_sum.specs.Soft.{clamp};
ghost use Rattle.min_sum.specs.Confidence.{i8};
ghost use Rattle.min_sum.specs.MinSum.{negate_if, new_u, new_v, new_first, new_second};
ghost use Rattle.min_sum.specs.Working.{mark_of};

use min_sum::marks::mark;

pub mod llrs;
pub mod parts;

// The largest number.
pub const TOP: i8 = i8::MAX;

// The number nearest to s, which fits an i8 then: TryFrom would test it again. A sum or a difference that is clamped becomes one instruction on whole vectors; saturating_add and its like compare,
// and the loops over edges took twice as long with them.
fn nearest(s: i16) -> i8
    ensures { result ≡ clamp 127 s }
{
    s.clamp(i16::from(i8::MIN), i16::from(i8::MAX)) as i8
}

// A sum and a difference that stay at 127 or -128 where they would pass it.
pub fn add(a: i8, b: i8) -> i8
    ensures { result ≡ i8.add a b }
{
    nearest(i16::from(a) + i16::from(b))
}

fn subtract(a: i8, b: i8) -> i8
    ensures { result ≡ i8.subtract a b }
{
    nearest(i16::from(a) - i16::from(b))
}

fn negate(a: i8) -> i8
    ensures { result ≡ i8.negate a }
{
    subtract(0, a)
}

fn magnitude(a: i8) -> i8
    ensures { result ≡ i8.magnitude a }
{
    if a < 0 { negate(a) } else { a }
}

fn negate_if(which: bool, a: i8) -> i8
    ensures { result ≡ negate_if i8 which a }
{
    let negated = negate(a); // ahead of the test, so that it is a choice and no branch: a frame takes up to 9 % longer with branches
    if which { negated } else { a }
}

// The message from a check to a bit.
pub fn new_u(v: i8, first: i8, second: i8, negative: bool) -> i8
    ensures { result ≡ new_u i8 v first second negative }
{
    let least = if magnitude(v) == first { second } else { first };
    negate_if(v < 0, negate_if(negative, least))
}

// The message from a bit to a check.
pub fn new_v(marginal: i8, u: i8, v: i8) -> i8
    ensures { result ≡ new_v i8 marginal u v }
{
    let x = subtract(marginal, u);
    let turned = if v == 0 { x } else { 0 };
    if (x < 0) == (v < 0) { x } else { turned }
}

// The minima of a check, after one more message v.
pub fn new_first(v: i8, first: i8) -> i8
    ensures { result ≡ new_first i8 (i8.magnitude v) first }
{
    let m = magnitude(v);
    // Not `min`: document 01's "strictly below" is the test, here and in new_second, and an edit weakens it there.
    if m < first { m } else { first }
}

pub fn new_second(v: i8, first: i8, second: i8) -> i8
    ensures { result ≡ new_second i8 (i8.magnitude v) first second }
{
    let m = magnitude(v);
    let next = if m < second { m } else { second };
    if m < first { first } else { next }
}

// What a message v turns in its check's byte, and its bit's marginal.
pub fn new_mark(v: i8, marginal: i8) -> u8
    ensures { result ≡ mark_of (i8.hard v) (i8.hard marginal) }
{
    mark(v < 0, marginal < 0)
}
