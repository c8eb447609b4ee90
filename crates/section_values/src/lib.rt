// The value in a section of a sheet by positions, and the section of critical.
#![tactic(auto)]

ghost use Rattle.std.specs.Prelude.{◌≡◌};
ghost use Rattle.layouts.specs.SheetScan.{value_at, flag_section_at};
ghost use Rattle.primitives.specs.Primitive.{leaf_of};

use heads::Span;
use primitives::Primitive;
use terms::{Reason, Refusal};

// How many bytes the section of an integer has.
const INTEGER_BYTES: usize = 8;

// The value in a section: of an integer those of its eight bytes that are needed, or 19 where it has not eight.
pub fn value(s: &[u8], p: Primitive, at: usize, section: Span) -> Result<Span, Refusal>
    ensures { result ≡ value_at (leaf_of p).holds s.now at section.start section.end }
{
    if !hiding::is_number(p) {
        return Ok(section);
    }
    let w = windows::window(s, section.start, section.end);
    if w.len() != INTEGER_BYTES {
        return Err(Reason::BadSheet.at(at));
    }
    Ok(Span {
        start: section.start + (INTEGER_BYTES - numbers::needed(w)),
        end: section.end,
    })
}

// The section of critical: where what follows it starts, or 19 unless it is one byte 0 or 1.
#[tactic(auto, unfolding(layouts::specs::SheetScan::flag_section_at, terms::specs::Answer::pick))]
pub fn flag(s: &[u8], at: usize, end: usize) -> Result<usize, Refusal>
    ensures { result ≡ flag_section_at s.now at end }
{
    let section = counts::section(s, at, end)?;
    let w = windows::window(s, section.start, section.end);
    if windows::is_same(w, b"\x00") || windows::is_same(w, b"\x01") {
        return Ok(section.end);
    }
    Err(Reason::BadSheet.at(at))
}
