// Of the lists of a record: how many items one has, and whether an item is critical.
// Kept: an accessor for each field by its name, as the rules ask and docs/FIELDS.md lists them; what they share is one function.
#![tactic(auto)]

ghost use Rattle.std.specs.Prelude.{◌≡◌};
ghost use Rattle.terms.specs.declared.Field.TheVariants.{CertificateList, SealCustomData, SealCustomCritical, SignedCustomData, SignedCustomCritical};
ghost use Rattle.terms.specs.Answer.{told_one};
ghost use Rattle.terms.specs.Numbers.{done};
ghost use Rattle.layouts.specs.Fields.{is_field};
ghost use Rattle.records.specs.Record.{signature};
ghost use Rattle.records.specs.Handing.{layout_of, fields_in, seek, tell, told_critical, critical_answer, count_answer, told_is, told_items};

use records::Record;
use terms::{Field, LARGEST_RECORD, Refusal};

// Whether an item of a record is critical.
fn critical(
    s: &[u8],
    x: Record,
    item: Field,
    flag: Field,
    index: usize,
) -> Result<Option<bool>, Refusal>
    ensures { told_is result ≡ tell (told_critical flag index (fields_in (layout_of x) s.now)) (seek (layout_of x) (is_field item index) s.now) }
{
    let reading = readers::read(s, structures::row_of(x), LARGEST_RECORD, index);
    reading.outcome?;
    Ok(tallies::critical_under(&reading.places, item, flag))
}

// How many items a list of a record has.
fn count(s: &[u8], x: Record, f: Field) -> Result<Option<usize>, Refusal>
    ensures { told_items result ≡ tell (λ x. told_one done x.items) (seek (layout_of x) (is_field f 0) s.now) }
{
    let reading = readers::read(s, structures::row_of(x), LARGEST_RECORD, 0);
    reading.outcome?;
    Ok(tallies::count_under(&reading.places, f))
}

// Whether a custom item of the seal is critical.
pub fn seal_custom_critical(s: &[u8], x: Record, index: usize) -> Result<Option<bool>, Refusal>
    ensures { told_is result ≡ critical_answer (layout_of x) SealCustomCritical index s.now }
{
    critical(
        s,
        x,
        Field::SealCustomItem,
        Field::SealCustomCritical,
        index,
    )
}

// Whether a custom item of the signed part is critical.
pub fn signed_custom_critical(s: &[u8], index: usize) -> Result<Option<bool>, Refusal>
    ensures { told_is result ≡ critical_answer signature SignedCustomCritical index s.now }
{
    critical(
        s,
        Record::Signature,
        Field::SignedCustomItem,
        Field::SignedCustomCritical,
        index,
    )
}

// How many certificates or digests the list has.
pub fn listed_count(s: &[u8], x: Record) -> Result<Option<usize>, Refusal>
    ensures { told_items result ≡ count_answer (layout_of x) CertificateList s.now }
{
    count(s, x, Field::CertificateList)
}

// How many custom items the seal has.
pub fn seal_custom_count(s: &[u8], x: Record) -> Result<Option<usize>, Refusal>
    ensures { told_items result ≡ count_answer (layout_of x) SealCustomData s.now }
{
    count(s, x, Field::SealCustomData)
}

// How many custom items the signed part has.
pub fn signed_custom_count(s: &[u8]) -> Result<Option<usize>, Refusal>
    ensures { told_items result ≡ count_answer signature SignedCustomData s.now }
{
    count(s, Record::Signature, Field::SignedCustomData)
}
