// Handing out by name: where a field lies in the lent record, and the part of the record that it is.
// What is cut by a table of places, or by an answer, is passed on from `cuts`.
#![tactic(auto)]

ghost use Rattle.std.specs.Prelude.{◌≡◌};
ghost use Rattle.layouts.specs.Fields.{is_field};
ghost use Rattle.records.specs.Handing.{layout_of, seek, tell, told_place, handed_out, told_part};
ghost use Rattle.records.specs.Part.{PartOf};

pub use cuts::{cut, cut_under, under};
use records::{Part, Record};
use terms::{Field, LARGEST_RECORD, Refusal};

// Where a field of a record lies, by its name and its index in a list; or why there is none.
#[tactic(auto, using(crate::specs::Laws::find_refused))]
pub fn find(s: &[u8], x: Record, f: Field, index: usize) -> Result<Option<Part>, Refusal>
    ensures { told_part result ≡ tell told_place (seek (layout_of x) (is_field f index) s.now) }
{
    let reading = readers::read(s, structures::row_of(x), LARGEST_RECORD, index);
    reading.outcome?;
    Ok(under(&reading.places, f))
}

// The part of the record that a field is; where there is none, no bytes, at the record's start.
pub fn part(s: &[u8], x: Record, f: Field, index: usize) -> &[u8]
    ensures { PartOf s.entry result (handed_out (seek (layout_of x) (is_field f index) s.now)) }
{
    cut(s, find(s, x, f, index))
}
