// What the value of a line of a bench sheet says.

#![tactic(auto)]

ghost use Rattle.std.specs.Prelude.{true, ◌≡◌, ◌≤◌, ◌*◌, length};
ghost use Rattle.std.specs.List.{list_all};
ghost use Rattle.std.proofs.lemmas.List.Edits.{sets};
ghost use Rattle.sheet_values.specs.Values.{value_of, decimal_value, digit_of, number_of, number_from, begins, op_of, hex_digit, hex_text, unhex, unhexed};

#[derive(Clone, Copy, Debug, PartialEq, Eq)]
pub enum Op {
    Encode,
    Bf,
    Ms,
}

// The value of a digit of lower-case hex. (By hand: `to_digit` takes upper case too.)
#[tactic(auto, unfolding(crate::specs::Values::value_of))]
fn value_of(b: u8) -> Option<u8>
    ensures { result ≡ value_of b }
{
    match b {
        b'0'..=b'9' => Some(b - b'0'),
        b'a'..=b'f' => Some(b - b'a' + 10),
        _ => None,
    }
}

fn decimal_value(b: u8) -> Option<u8>
    ensures { result ≡ decimal_value b }
{
    value_of(b).filter(|&d| d < 10)
}

// (By hand: `parse` takes a plus sign too.)
pub fn digit_of(v: &[u8]) -> Option<usize>
    ensures { result ≡ digit_of v.now }
{
    let &[b] = v else {
        return None;
    };
    Some(usize::from(decimal_value(b)?))
}

// (By hand: `parse` takes a plus sign too.)
fn number_from(v: &[u8]) -> Option<u32>
    ensures { result ≡ number_from 0 v.now }
{
    let mut n: u32 = 0;
    for &b in v {
        let d = decimal_value(b)?;
        n = n.checked_mul(10)?.checked_add(u32::from(d))?;
    }
    Some(n)
}

// A number in decimal, without leading zeros.
pub fn number_of(v: &[u8]) -> Option<u32>
    ensures { result ≡ number_of v.now }
{
    match v {
        [] | [b'0', _, ..] => None,
        _ => number_from(v),
    }
}

// The text starts with the word.
pub fn starts_with(s: &[u8], word: &[u8]) -> bool
    ensures { result ≡ begins word.now s.now }
{
    s.starts_with(word)
}

pub fn op_of(v: &[u8]) -> Option<Op>
    ensures { result ≡ op_of v.now }
{
    match v {
        b"encode" => Some(Op::Encode),
        b"bf" => Some(Op::Bf),
        b"ms" => Some(Op::Ms),
        _ => None,
    }
}

fn all_hex(v: &[u8]) -> bool
    ensures { result ≡ list_all hex_digit v.now }
{
    v.iter().all(|&b| value_of(b).is_some())
}

// Pairs of hex digits, and nothing else.
#[tactic(auto, unfolding(crate::specs::Values::hex_text))]
pub fn is_hex(v: &[u8]) -> bool
    ensures { result ≡ hex_text v.now }
{
    v.len() % 2 == 0 && all_hex(v)
}

fn put_bytes(digits: &[u8], out: &mut [u8])
    requires { (hex_text digits.now ≡ true) × (length digits.now ≤ 2 * length out.old) }
    ensures { out.new ≡ sets out.old 0 (unhex digits.now) }
{
    let (pairs, _) = digits.as_chunks::<2>();
    for (j, &[high, low]) in pairs.iter().enumerate() {
        out[j] = 16 * value_of(high).unwrap() + value_of(low).unwrap();
    }
}

// The bytes of a text of hex digits, at the front of what is lent; where it is no such text, or there is no room, nothing is written.
pub fn hex_bytes(digits: &[u8], out: &mut [u8])
    ensures { out.new ≡ unhexed digits.now out.old }
{
    if is_hex(digits) && digits.len() / 2 <= out.len() {
        put_bytes(digits, out);
    }
}
