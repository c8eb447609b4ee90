// Reading a seal and a signature record that are the whole input.
#![tactic(auto)]

ghost use Rattle.std.specs.Prelude.{◌≡◌};
ghost use Rattle.layouts.specs.Places.{Placed};
ghost use Rattle.layouts.specs.Whole.{accept, told_outcome};
ghost use Rattle.records.specs.Record.{seal, signature};
ghost use Rattle.records.specs.Handing.{told_record, record_answer, fields_of, fields_in};
ghost use Rattle.structures.specs.Structure.{row_of};
ghost use Rattle.readers.specs.Whole.{whole_walk};

use places::TABLE_SIZE;
use structures::Row;
use terms::{LARGEST_RECORD, Refusal};

// What reading a record comes to; and, where it was accepted, the table of its places.
// Kept: with a refusal there is a table too, an empty one of the same index (clause `placed`).
#[derive(Clone, Copy)]
pub struct Reading {
    pub outcome: Result<usize, Refusal>,
    pub places: [usize; TABLE_SIZE],
}

// A record of at most `most` bytes that is the whole input, noted in a lent table of places: 5 if bytes are left over.
pub fn whole(s: &[u8], x: Row, most: usize, places: &mut [usize]) -> Result<usize, Refusal>
    ensures { (result, places.new) ≡ whole_walk most (row_of x) s.now places.old }
{
    let next = walks::record(s, x, most, 0, s.len(), places)?;
    edges::close(next, s.len())
}

// A record of at most `most` bytes, and nothing noted of it.
pub fn check(s: &[u8], x: Row, most: usize) -> Result<usize, Refusal>
    ensures { told_outcome result ≡ told_record most (row_of x) s.now }
{
    whole(s, x, most, &mut [0usize; 0])
}

// A record of at most `most` bytes, and where its fields stand: of those in a list, the one of an index.
pub fn read(s: &[u8], x: Row, most: usize, index: usize) -> Reading
    ensures outcome_value { told_outcome result.outcome ≡ told_record most (row_of x) s.now }
    ensures placed { Placed index (fields_of (row_of x) (accept most (row_of x) s.now)) result.places }
{
    let mut places = places::blank(index);
    let outcome = whole(s, x, most, &mut places);
    if outcome.is_err() {
        return Reading {
            outcome,
            places: places::blank(index),
        };
    }
    Reading { outcome, places }
}

// A seal: its length, or the first refusal.
// Kept: each record by its name, as README and docs/PROMISES.md have it, over one function.
pub fn check_seal(s: &[u8]) -> Result<usize, Refusal>
    ensures { told_outcome result ≡ record_answer seal s.now }
{
    check(s, Row::Seal, LARGEST_RECORD)
}

// A signature record: its length, or the first refusal.
pub fn check_signature(s: &[u8]) -> Result<usize, Refusal>
    ensures { told_outcome result ≡ record_answer signature s.now }
{
    check(s, Row::Signature, LARGEST_RECORD)
}

// A seal, and where its fields stand: of those in a list, the one of an index.
pub fn read_seal(s: &[u8], index: usize) -> Reading
    ensures outcome_value { told_outcome result.outcome ≡ record_answer seal s.now }
    ensures placed { Placed index (fields_in seal s.now) result.places }
{
    read(s, Row::Seal, LARGEST_RECORD, index)
}

// A signature record, and where its fields stand: of those in a list, the one of an index.
pub fn read_signature(s: &[u8], index: usize) -> Reading
    ensures outcome_value { told_outcome result.outcome ≡ record_answer signature s.now }
    ensures placed { Placed index (fields_in signature s.now) result.places }
{
    read(s, Row::Signature, LARGEST_RECORD, index)
}
