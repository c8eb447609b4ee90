// Primitive items by name: the head, then the content's rule.
#![tactic(auto)]

ghost use Rattle.std.specs.Prelude.{◌≡◌};
ghost use Rattle.contents.specs.Leaves.{rule_of, only};
ghost use Rattle.contents.specs.Scan.{checked_at, content_at};
ghost use Rattle.layouts.specs.Scan.{leaf_at};
ghost use Rattle.primitives.specs.Primitive.{leaf_of, known_of};

use heads::Span;
use integers::Allowed;
use primitives::{Primitive, Word};
use terms::{MAY_BE_EMPTY, NEVER_EMPTY, Refusal};

// A value by the rule of its primitive item.
// Kept: the rules take different arguments; as closures they would be named twice.
#[tactic(auto, using(crate::specs::Laws::primitive_rule))]
pub fn rule(s: &[u8], p: Primitive, at: usize, a: usize, z: usize) -> Result<(), Refusal>
    ensures { result ≡ checked_at (rule_of (leaf_of p).holds) s.now at a z }
{
    match p {
        Primitive::Octets => octets::octets(s, at, a, z, NEVER_EMPTY),
        Primitive::AnyOctets => octets::octets(s, at, a, z, MAY_BE_EMPTY),
        Primitive::Bits => octets::octets(s, at, a, z, NEVER_EMPTY),
        Primitive::Ia5 => texts::ia5(s, at, a, z, NEVER_EMPTY),
        Primitive::AnyIa5 => texts::ia5(s, at, a, z, MAY_BE_EMPTY),
        Primitive::AnyPrintable => texts::printable(s, at, a, z, MAY_BE_EMPTY),
        Primitive::AnyUtf8 => texts::utf8(s, at, a, z, MAY_BE_EMPTY),
        Primitive::Identifier => identifiers::identifier(s, at, a, z),
        Primitive::Time => times::time(s, at, a, z),
        Primitive::Integer => integers::integer(s, at, a, z, Allowed::Any),
        Primitive::ListKind => integers::integer(s, at, a, z, Allowed::Kind),
        Primitive::Millimetres => integers::integer(s, at, a, z, Allowed::Millimetres),
        Primitive::Critical => octets::boolean(s, at, a, z),
        Primitive::HeaderName => texts::header_name(s, at, a, z),
        Primitive::Version => integers::version(s, at, a, z),
    }
}

// A content: what it must begin with, as a bit string alone does, then its value's rule.
fn content(s: &[u8], p: Primitive, at: usize, a: usize, z: usize) -> Result<(), Refusal>
    ensures { result ≡ content_at (leaf_of p).front (rule_of (leaf_of p).holds) s.now at a z }
{
    if hiding::hidden_of(p) == 0 {
        return rule(s, p, at, a, z);
    }
    octets::bits(s, at, a, z)
}

// A primitive item: where its value lies, or the refusal of its head or its content.
pub fn leaf(s: &[u8], p: Primitive, at: usize, end: usize) -> Result<Span, Refusal>
    ensures { result ≡ leaf_at (leaf_of p) s.now at end }
{
    let Span { start: a, end: z } = items::head(s, primitives::tag_of(p), at, end)?;
    answers::judged(content(s, p, at, a, z), a + hiding::hidden_of(p), z)
}

// A member whose content is known.
pub fn known(s: &[u8], w: Word, at: usize, end: usize) -> Result<Span, Refusal>
    ensures { result ≡ leaf_at (only (known_of w)) s.now at end }
{
    leaf(s, primitives::known_as(w), at, end)
}
