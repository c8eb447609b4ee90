// The counts of a sheet by positions: a count, that of a list, and the bytes of a section by theirs.
#![tactic(auto)]

ghost use Rattle.std.specs.Prelude.{◌≡◌};
ghost use Rattle.layouts.specs.SheetScan.{count_at, list_count_at, section_at};

use heads::Span;
use terms::{Reason, Refusal};

// How many bytes a count has.
pub const COUNT_BYTES: usize = 4;

// A count: its number, or 19 where it is cut.
pub fn count(s: &[u8], at: usize, end: usize) -> Result<usize, Refusal>
    ensures { result ≡ count_at s.now at end }
{
    let w = windows::window(s, at, end);
    match w {
        [a, b, c, d, ..] => Ok(u32::from_be_bytes([*a, *b, *c, *d]) as usize),
        _ => Err(Reason::BadSheet.at(at)),
    }
}

// The count of a list of at most `most` items: 19, then 15 where it has none and needs one, then 16.
#[tactic(auto, unfolding(layouts::specs::SheetScan::list_count_at, terms::specs::Answer::pick))]
pub fn list_count(
    s: &[u8],
    empty: bool,
    most: usize,
    at: usize,
    end: usize,
) -> Result<usize, Refusal>
    ensures { result ≡ list_count_at empty most s.now at end }
{
    let n = count(s, at, end)?;
    if !windows::enough(0, n, empty) {
        return Err(Reason::NoItem.at(at));
    }
    if most < n {
        return Err(Reason::TooManyItems.at(at));
    }
    Ok(n)
}

// A section: where its bytes lie, or 19 where it is cut.
pub fn section(s: &[u8], at: usize, end: usize) -> Result<Span, Refusal>
    ensures { result ≡ section_at s.now at end }
{
    let n = count(s, at, end)?;
    let start = at + COUNT_BYTES;
    let w = windows::window(s, start, end);
    if w.len() < n {
        return Err(Reason::BadSheet.at(at));
    }
    Ok(Span {
        start,
        end: start + n,
    })
}
