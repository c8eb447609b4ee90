// What a table of places has under a name, and the part of a record that an answer names.
#![tactic(auto)]

ghost use Rattle.std.specs.Prelude.{◌≡◌, Ok, length as size};
ghost use Rattle.records.specs.Part.{PartOf};
ghost use Rattle.cuts.specs.Handed.{part_under, span_of, within};

use records::Part;
use terms::{Field, Refusal};

// What a table of places has under a name.
#[tactic(auto, unfolding(crate::specs::Handed::part_under, layouts::specs::Places::under, terms::specs::Answer::pick))]
pub fn under(places: &[usize], f: Field) -> Option<Part>
    ensures { Ok result ≡ part_under f places.now }
{
    let place = lookups::under(places, f);
    place.there.then_some(Part {
        start: place.start,
        length: place.length,
    })
}

// The bytes of a record from a start on; where it has not so many, none, at the record's start.
fn span(s: &[u8], start: usize, length: usize) -> &[u8]
    ensures { PartOf s.entry result (within (size s.now) (start, length)) }
{
    if start <= s.len() && length <= s.len() - start {
        return &s[start..start + length];
    }
    &s[..0]
}

// The part of a record that an answer names: where it names none, or one that does not lie in the record, no bytes, at the record's start.
pub fn cut(s: &[u8], x: Result<Option<Part>, Refusal>) -> &[u8]
    ensures { PartOf s.entry result (within (size s.now) (span_of x)) }
{
    match x {
        Ok(Some(p)) => span(s, p.start, p.length),
        Ok(None) | Err(_) => span(s, 0, 0),
    }
}

// The part of a record that a table of places has under a name, so that a caller who wants many fields reads once.
pub fn cut_under<'a, 'b>(s: &'a [u8], places: &'b [usize], f: Field) -> &'a [u8]
    ensures { PartOf s.entry result (within (size s.now) (span_of (part_under f places.now))) }
{
    cut(s, Ok(under(places, f)))
}
