// What is asked with numbers: the record by its kind, a field by its number.
// Kept: kinds and fields are numbers here, those of the C interface.
#![tactic(auto)]

ghost use Rattle.std.specs.Prelude.{◌≡◌};
ghost use Rattle.records.specs.Handing.{told_part, told_number, told_is, told_items};
ghost use Rattle.asked.specs.Asked.{kind_of, asked_field, asked_match, asked_value, asked_critical, asked_count};

use records::{Part, Record};
use terms::Refusal;

// How many fields have numbers.
const NAMES_COUNT: u8 = 43;

// The record of a kind: 0 a seal, every other a signature record.
#[tactic(auto, unfolding(crate::specs::Asked::kind_of, terms::specs::Answer::pick))]
fn kind_of(kind: u8) -> Record
    ensures { result ≡ kind_of kind }
{
    match kind {
        0 => Record::Seal,
        _ => Record::Signature,
    }
}

// Where a field lies; a number past the last one is absent.
pub fn part(kind: u8, record: &[u8], field: u8, index: usize) -> Result<Option<Part>, Refusal>
    ensures { told_part result ≡ asked_field kind field index «record».now }
{
    if NAMES_COUNT <= field {
        return Ok(None);
    }
    fields::find(record, kind_of(kind), names::name_of(field), index)
}

// Where the matching entry lies.
#[tactic(auto, unfolding(crate::specs::Asked::asked_match))]
pub fn matching_entry(kind: u8, record: &[u8], given: &[u8]) -> Result<Option<Part>, Refusal>
    ensures { told_part result ≡ asked_match kind given.now «record».now }
{
    matching::find(record, kind_of(kind), given)
}

// An integer; the number of another field is absent.
pub fn integer(kind: u8, record: &[u8], field: u8) -> Result<Option<i64>, Refusal>
    ensures { told_number result ≡ asked_value kind field «record».now }
{
    match field {
        5 => values::seal_type(record, kind_of(kind)),
        7 => values::list_kind(record, kind_of(kind)),
        19 => values::width(record, kind_of(kind)),
        20 => values::height(record, kind_of(kind)),
        _ => Ok(None),
    }
}

// Whether a custom item is critical, by the record's kind; the number of another field is absent.
#[tactic(auto, using(crate::specs::Laws::critical_no_seal, crate::specs::Laws::critical_no_signature), unfolding(crate::specs::Asked::asked_critical, crate::specs::Asked::only_if, crate::specs::Asked::is_among, terms::specs::Answer::pick))]
pub fn critical(kind: u8, record: &[u8], field: u8, index: usize) -> Result<Option<bool>, Refusal>
    ensures { told_is result ≡ asked_critical (kind_of kind) field index «record».now }
{
    match (kind_of(kind), field) {
        (x, 24) => lists::seal_custom_critical(record, x, index),
        (Record::Signature, 37) => lists::signed_custom_critical(record, index),
        _ => Ok(None),
    }
}

// How many items a list has, by the record's kind; the number of another field is absent.
#[tactic(auto, using(crate::specs::Laws::count_no_seal, crate::specs::Laws::count_no_signature), unfolding(crate::specs::Asked::asked_count, crate::specs::Asked::only_if, crate::specs::Asked::is_among, terms::specs::Answer::pick))]
pub fn items(kind: u8, record: &[u8], field: u8) -> Result<Option<usize>, Refusal>
    ensures { told_items result ≡ asked_count (kind_of kind) field «record».now }
{
    match (kind_of(kind), field) {
        (x, 8) => lists::listed_count(record, x),
        (x, 21) => lists::seal_custom_count(record, x),
        (Record::Signature, 34) => lists::signed_custom_count(record),
        _ => Ok(None),
    }
}
