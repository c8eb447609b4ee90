// The number that one to eight two's-complement bytes stand for, and how many bytes a number needs.
#![tactic(auto)]

ghost use Rattle.std.specs.Prelude.{◌≡◌, ◌≤◌, length, not, eqb, IsTrue};
ghost use Rattle.contents.specs.Integer.{sign as signOf, shortest, value, shrink};
ghost use Rattle.numbers.specs.Number.{number_of, number_at};

// The byte that may stand before another without changing the number.
#[tactic(auto, unfolding(contents::specs::Integer::sign, terms::specs::Answer::pick))]
fn sign(b: u8) -> u8
    ensures { result ≡ signOf b }
{
    if b < 0x80 { 0x00 } else { 0xFF }
}

// Whether a byte before another is needed.
fn is_needed(a: u8, b: u8) -> bool
    ensures { result ≡ not (eqb a (signOf b)) }
{
    a != sign(b)
}

// Whether the first byte of a content is needed.
#[tactic(auto, unfolding(contents::specs::Integer::shortest))]
fn is_shortest(c: &[u8]) -> bool
    ensures { result ≡ shortest c.now }
{
    match c {
        [] => false,
        [_] => true,
        [a, b, ..] => is_needed(*a, *b),
    }
}

// The number of a section.
pub fn from_eight(b: [u8; 8]) -> i64
    ensures { result ≡ value b }
{
    i64::from_be_bytes(b)
}

// The number that one to eight bytes stand for: the first byte's sign goes before them, up to eight.
fn value_in(c: &[u8]) -> i64
    requires shortest { IsTrue (shortest c.now) }
    requires few { length c.now ≤ 8 }
    ensures { result ≡ value c.now }
{
    let mut b = [sign(c[0]); 8];
    b[8 - c.len()..].copy_from_slice(c);
    from_eight(b)
}

// The number of a whole content.
#[tactic(auto, unfolding(crate::specs::Number::number_of, contents::specs::Integer::well_formed, terms::specs::Answer::pick))]
fn number_in(c: &[u8]) -> Option<i64>
    ensures { result ≡ number_of c.now }
{
    if is_shortest(c) && c.len() <= 8 {
        Some(value_in(c))
    } else {
        None
    }
}

// The number of the content from one position to another.
#[tactic(auto, unfolding(crate::specs::Number::number_at))]
pub fn read(s: &[u8], a: usize, z: usize) -> Option<i64>
    ensures { result ≡ number_at s.now a z }
{
    number_in(windows::window(s, a, z))
}

// How many bytes are needed: those from the first that is needed on.
pub fn needed(c: &[u8]) -> usize
    ensures { (result ≡ length (shrink c.now)) × (result ≤ length c.now) }
{
    let mut rest = c;
    while let [a, b, ..] = rest {
        if is_needed(*a, *b) {
            break;
        }
        rest = &rest[1..];
    }
    rest.len()
}
