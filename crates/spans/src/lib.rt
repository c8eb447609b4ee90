// The values in a source, a record or a sheet: where a primitive item's lies, whether a flag is set, and what follows a known member.
#![tactic(auto)]

ghost use Rattle.std.specs.Prelude.{◌≡◌};
ghost use Rattle.primitives.specs.Primitive.{leaf_of, known_of, says};
ghost use Rattle.sides.specs.Move.{span_at, value_at, flag_at, known_at};
ghost use Rattle.sides.specs.declared.Side.TheVariants as side;

use heads::Span;
use primitives::{Content, Primitive, Word};
use sides::Side;
use sources::{Presence, Source};
use tags::Tag;

// The value of a primitive item in a record.
fn in_record(s: &[u8], p: Primitive, at: usize, end: usize) -> Span
    ensures { (result.start, result.end) ≡ span_at side.Record (leaf_of p) s.now at end }
{
    match items::head(s, primitives::tag_of(p), at, end) {
        Ok(item) => Span {
            start: item.start + hiding::hidden_of(p),
            end: item.end,
        },
        Err(_) => Span { start: at, end: at },
    }
}

// The value of a primitive item in a sheet.
fn in_sheet(s: &[u8], p: Primitive, at: usize, end: usize) -> Span
    ensures { (result.start, result.end) ≡ span_at side.Sheet (leaf_of p) s.now at end }
{
    match counts::section(s, at, end) {
        Ok(section) => sources::content(section_values::value(s, p, at, section), at),
        Err(_) => Span { start: at, end: at },
    }
}

// The value of a primitive item, which ends where the item does.
pub fn value(source: Source<'_>, p: Primitive, at: usize, end: usize) -> Span
    ensures { (result.start, result.end) ≡ span_at source.entry.side (leaf_of p) source.entry.bytes.now at end }
{
    match source.side {
        Side::Record => in_record(source.bytes, p, at, end),
        Side::Sheet => in_sheet(source.bytes, p, at, end),
    }
}

// A flag, and where what follows it starts.
#[tactic(auto, unfolding(sides::specs::Move::flag_at, sides::specs::Move::value_at, terms::specs::Answer::pick))]
pub fn flag(source: Source<'_>, at: usize, end: usize) -> Presence
    ensures { (result.there, result.start) ≡ flag_at source.entry.side source.entry.bytes.now at end }
{
    match source.side {
        Side::Record => {
            if edges::begins(source.bytes, Tag::Boolean, at, end) {
                return Presence {
                    there: true,
                    start: in_record(source.bytes, Primitive::Critical, at, end).end,
                };
            }
            Presence {
                there: false,
                start: at,
            }
        }
        Side::Sheet => {
            let h = in_sheet(source.bytes, Primitive::Critical, at, end);
            let w = windows::window(source.bytes, h.start, h.end);
            Presence {
                there: windows::is_same(w, b"\x01"),
                start: h.end,
            }
        }
    }
}

// Where what follows a known member starts: a sheet has none.
#[tactic(auto, unfolding(sides::specs::Move::known_at))]
pub fn known(source: Source<'_>, w: Word, at: usize, end: usize) -> usize
    ensures { result ≡ known_at source.entry.side (known_of w) source.entry.bytes.now at end }
{
    match source.side {
        Side::Record => in_record(source.bytes, primitives::known_as(w), at, end).end,
        Side::Sheet => at,
    }
}

// Whether the value that stands here is the content that is named.
#[tactic(auto, unfolding(sides::specs::Move::value_at))]
pub fn is_content(source: Source<'_>, p: Primitive, c: Content, at: usize, end: usize) -> bool
    ensures { result ≡ says c (value_at source.entry.side (leaf_of p) source.entry.bytes.now at end) }
{
    let v = value(source, p, at, end);
    answers::is_content(source.bytes, c, v.start, v.end)
}
