// The entry of a certificate list that equals given bytes, looked for by heads in the list that a table of places has.
#![tactic(auto)]

ghost use Rattle.std.specs.Prelude.{◌≡◌, Ok};
ghost use Rattle.terms.specs.declared.Field.TheVariants.{ListKind};
ghost use Rattle.terms.specs.Numbers.{most_items};
ghost use Rattle.contents.specs.Integer.{says_kind1};
ghost use Rattle.cuts.specs.Handed.{part_under};
ghost use Rattle.searches.specs.Match.{entry_at, listed_at, bytes_at, match_under};

use heads::Span;
use records::Part;
use tags::Tag;
use terms::{Field, MOST_ITEMS, Refusal};

// What is compared of the entry at a position.
#[tactic(auto, unfolding(crate::specs::Match::entry_at))]
fn entry_at(s: &[u8], kind_1: bool, at: usize, end: usize) -> Result<Span, Refusal>
    ensures { result ≡ entry_at kind_1 s.now at end }
{
    if kind_1 {
        return items::head(s, Tag::OctetString, at, end);
    }
    let entry = items::head(s, Tag::Sequence, at, end)?;
    let named = items::head(s, Tag::PrintableString, entry.start, entry.end)?;
    items::head(s, Tag::OctetString, named.end, entry.end)
}

// The first entry from a position on that is the given bytes.
#[tactic(auto, using(crate::specs::Laws::entry_order, crate::specs::Laws::listed_step), unfolding(terms::specs::Answer::pick))]
fn listed(s: &[u8], given: &[u8], kind_1: bool, at: usize, end: usize) -> Option<Part>
    ensures { Ok result ≡ listed_at given.now kind_1 s.now end most_items at }
{
    let mut p = at;
    for _ in 0..MOST_ITEMS {
        if end <= p {
            return None;
        }
        let entry = entry_at(s, kind_1, p, end).ok()?;
        if windows::is_same(given, windows::window(s, entry.start, entry.end)) {
            return Some(Part {
                start: entry.start,
                length: entry.end - entry.start,
            });
        }
        p = entry.end;
    }
    None
}

// Whether the kind that a table of places has is 1.
pub fn is_kind_1(s: &[u8], places: &[usize]) -> bool
    ensures { result ≡ says_kind1 (bytes_at s.now (part_under ListKind places.now)) }
{
    windows::is_same(cuts::cut_under(s, places, Field::ListKind), b"\x01")
}

// Where the first entry lies that is the given bytes, in the list that a table of places has.
#[tactic(auto, unfolding(crate::specs::Match::match_under))]
pub fn find_under(s: &[u8], places: &[usize], given: &[u8]) -> Option<Part>
    ensures { Ok result ≡ match_under given.now s.now places.now }
{
    let list = cuts::under(places, Field::CertificateList)?;
    let entries = items::head(s, Tag::Sequence, list.start, s.len()).ok()?;
    listed(s, given, is_kind_1(s, places), entries.start, entries.end)
}
