// The matching entry of a record's certificate list: the first that equals given bytes, a certificate where the list's kind is 1, else a digest.
// What is looked for by a table of places is passed on from `searches`.
#![tactic(auto)]

ghost use Rattle.std.specs.Prelude.{◌≡◌};
ghost use Rattle.records.specs.Handing.{layout_of, match_in, match_answer, handed_out, told_part};
ghost use Rattle.records.specs.Part.{PartOf};

use records::{Part, Record};
pub use searches::{find_under, is_kind_1};
use terms::{LARGEST_RECORD, Refusal};

// Where the first entry lies that is the given bytes, or why there is none.
pub fn find(s: &[u8], x: Record, given: &[u8]) -> Result<Option<Part>, Refusal>
    ensures { told_part result ≡ match_answer (layout_of x) given.now s.now }
{
    let reading = readers::read(s, structures::row_of(x), LARGEST_RECORD, 0);
    reading.outcome?;
    Ok(find_under(s, &reading.places, given))
}

// The first entry that is the given bytes, as a part of the record; where there is none, no bytes, at the record's start.
pub fn part<'a, 'b>(record: &'a [u8], x: Record, given: &'b [u8]) -> &'a [u8]
    ensures { PartOf «record».entry result (handed_out (match_in (layout_of x) given.now «record».now)) }
{
    fields::cut(record, find(record, x, given))
}
