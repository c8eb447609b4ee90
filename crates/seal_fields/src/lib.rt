// The fields of a seal by name: each the part of the lent record that it is, and, beside it, where that part lies or why there is none.
// The record is a seal, or a signature record with its seal.
// Kept: an accessor for each field by its name, as the rules ask and docs/FIELDS.md lists them; what they share is one function.
#![tactic(auto)]

ghost use Rattle.std.specs.Prelude.{◌≡◌};
ghost use Rattle.terms.specs.declared.Field.TheVariants.{SealInformation, Vendor, SealId, SealName, ListedCertificate, ListedType, ListedDigest, Created, Start, End, PictureType, PictureData, SealCustomId, SealCustomValue, MakerCertificate, SealAlgorithm, SealSignedValue};
ghost use Rattle.records.specs.Handing.{layout_of, field_in, field_answer, handed_out, told_part};
ghost use Rattle.records.specs.Part.{PartOf};

use records::{Part, Record};
use terms::{Field, Refusal};

// What the maker signed: the seal information, with its own tag and length.
pub fn signed_bytes(s: &[u8], x: Record) -> &[u8]
    ensures { PartOf s.entry result (handed_out (field_in (layout_of x) SealInformation 0 s.now)) }
{
    fields::part(s, x, Field::SealInformation, 0)
}

// Where what the maker signed lies, or why there is none.
pub fn signed_bytes_place(s: &[u8], x: Record) -> Result<Option<Part>, Refusal>
    ensures { told_part result ≡ field_answer (layout_of x) SealInformation 0 s.now }
{
    fields::find(s, x, Field::SealInformation, 0)
}

// The vendor.
pub fn vendor(s: &[u8], x: Record) -> &[u8]
    ensures { PartOf s.entry result (handed_out (field_in (layout_of x) Vendor 0 s.now)) }
{
    fields::part(s, x, Field::Vendor, 0)
}

// Where the vendor lies, or why there is none.
pub fn vendor_place(s: &[u8], x: Record) -> Result<Option<Part>, Refusal>
    ensures { told_part result ≡ field_answer (layout_of x) Vendor 0 s.now }
{
    fields::find(s, x, Field::Vendor, 0)
}

// The seal id.
pub fn id(s: &[u8], x: Record) -> &[u8]
    ensures { PartOf s.entry result (handed_out (field_in (layout_of x) SealId 0 s.now)) }
{
    fields::part(s, x, Field::SealId, 0)
}

// Where the seal id lies, or why there is none.
pub fn id_place(s: &[u8], x: Record) -> Result<Option<Part>, Refusal>
    ensures { told_part result ≡ field_answer (layout_of x) SealId 0 s.now }
{
    fields::find(s, x, Field::SealId, 0)
}

// The seal's name.
pub fn name(s: &[u8], x: Record) -> &[u8]
    ensures { PartOf s.entry result (handed_out (field_in (layout_of x) SealName 0 s.now)) }
{
    fields::part(s, x, Field::SealName, 0)
}

// Where the seal's name lies, or why there is none.
pub fn name_place(s: &[u8], x: Record) -> Result<Option<Part>, Refusal>
    ensures { told_part result ≡ field_answer (layout_of x) SealName 0 s.now }
{
    fields::find(s, x, Field::SealName, 0)
}

// A certificate of the list, where the list's kind is 1.
pub fn certificate(s: &[u8], x: Record, index: usize) -> &[u8]
    ensures { PartOf s.entry result (handed_out (field_in (layout_of x) ListedCertificate index s.now)) }
{
    fields::part(s, x, Field::ListedCertificate, index)
}

// Where a certificate of the list lies, or why there is none.
pub fn certificate_place(s: &[u8], x: Record, index: usize) -> Result<Option<Part>, Refusal>
    ensures { told_part result ≡ field_answer (layout_of x) ListedCertificate index s.now }
{
    fields::find(s, x, Field::ListedCertificate, index)
}

// The PrintableString of a listed digest, where the list's kind is 2.
pub fn digest_type(s: &[u8], x: Record, index: usize) -> &[u8]
    ensures { PartOf s.entry result (handed_out (field_in (layout_of x) ListedType index s.now)) }
{
    fields::part(s, x, Field::ListedType, index)
}

// Where the PrintableString of a listed digest lies, or why there is none.
pub fn digest_type_place(s: &[u8], x: Record, index: usize) -> Result<Option<Part>, Refusal>
    ensures { told_part result ≡ field_answer (layout_of x) ListedType index s.now }
{
    fields::find(s, x, Field::ListedType, index)
}

// A listed digest, where the list's kind is 2.
pub fn digest(s: &[u8], x: Record, index: usize) -> &[u8]
    ensures { PartOf s.entry result (handed_out (field_in (layout_of x) ListedDigest index s.now)) }
{
    fields::part(s, x, Field::ListedDigest, index)
}

// Where a listed digest lies, or why there is none.
pub fn digest_place(s: &[u8], x: Record, index: usize) -> Result<Option<Part>, Refusal>
    ensures { told_part result ≡ field_answer (layout_of x) ListedDigest index s.now }
{
    fields::find(s, x, Field::ListedDigest, index)
}

// When the seal was created.
pub fn created(s: &[u8], x: Record) -> &[u8]
    ensures { PartOf s.entry result (handed_out (field_in (layout_of x) Created 0 s.now)) }
{
    fields::part(s, x, Field::Created, 0)
}

// Where the time of its making lies, or why there is none.
pub fn created_place(s: &[u8], x: Record) -> Result<Option<Part>, Refusal>
    ensures { told_part result ≡ field_answer (layout_of x) Created 0 s.now }
{
    fields::find(s, x, Field::Created, 0)
}

// The start of the seal's period.
pub fn start(s: &[u8], x: Record) -> &[u8]
    ensures { PartOf s.entry result (handed_out (field_in (layout_of x) Start 0 s.now)) }
{
    fields::part(s, x, Field::Start, 0)
}

// Where the start of the seal's period lies, or why there is none.
pub fn start_place(s: &[u8], x: Record) -> Result<Option<Part>, Refusal>
    ensures { told_part result ≡ field_answer (layout_of x) Start 0 s.now }
{
    fields::find(s, x, Field::Start, 0)
}

// The end of the seal's period.
pub fn end(s: &[u8], x: Record) -> &[u8]
    ensures { PartOf s.entry result (handed_out (field_in (layout_of x) End 0 s.now)) }
{
    fields::part(s, x, Field::End, 0)
}

// Where the end of the seal's period lies, or why there is none.
pub fn end_place(s: &[u8], x: Record) -> Result<Option<Part>, Refusal>
    ensures { told_part result ≡ field_answer (layout_of x) End 0 s.now }
{
    fields::find(s, x, Field::End, 0)
}

// The picture's type.
pub fn picture_type(s: &[u8], x: Record) -> &[u8]
    ensures { PartOf s.entry result (handed_out (field_in (layout_of x) PictureType 0 s.now)) }
{
    fields::part(s, x, Field::PictureType, 0)
}

// Where the picture's type lies, or why there is none.
pub fn picture_type_place(s: &[u8], x: Record) -> Result<Option<Part>, Refusal>
    ensures { told_part result ≡ field_answer (layout_of x) PictureType 0 s.now }
{
    fields::find(s, x, Field::PictureType, 0)
}

// The picture's data.
pub fn picture_data(s: &[u8], x: Record) -> &[u8]
    ensures { PartOf s.entry result (handed_out (field_in (layout_of x) PictureData 0 s.now)) }
{
    fields::part(s, x, Field::PictureData, 0)
}

// Where the picture's data lies, or why there is none.
pub fn picture_data_place(s: &[u8], x: Record) -> Result<Option<Part>, Refusal>
    ensures { told_part result ≡ field_answer (layout_of x) PictureData 0 s.now }
{
    fields::find(s, x, Field::PictureData, 0)
}

// The identifier of a custom item.
pub fn custom_id(s: &[u8], x: Record, index: usize) -> &[u8]
    ensures { PartOf s.entry result (handed_out (field_in (layout_of x) SealCustomId index s.now)) }
{
    fields::part(s, x, Field::SealCustomId, index)
}

// Where the identifier of a custom item lies, or why there is none.
pub fn custom_id_place(s: &[u8], x: Record, index: usize) -> Result<Option<Part>, Refusal>
    ensures { told_part result ≡ field_answer (layout_of x) SealCustomId index s.now }
{
    fields::find(s, x, Field::SealCustomId, index)
}

// The value of a custom item.
pub fn custom_value(s: &[u8], x: Record, index: usize) -> &[u8]
    ensures { PartOf s.entry result (handed_out (field_in (layout_of x) SealCustomValue index s.now)) }
{
    fields::part(s, x, Field::SealCustomValue, index)
}

// Where the value of a custom item lies, or why there is none.
pub fn custom_value_place(s: &[u8], x: Record, index: usize) -> Result<Option<Part>, Refusal>
    ensures { told_part result ≡ field_answer (layout_of x) SealCustomValue index s.now }
{
    fields::find(s, x, Field::SealCustomValue, index)
}

// The maker's certificate.
pub fn maker(s: &[u8], x: Record) -> &[u8]
    ensures { PartOf s.entry result (handed_out (field_in (layout_of x) MakerCertificate 0 s.now)) }
{
    fields::part(s, x, Field::MakerCertificate, 0)
}

// Where the maker's certificate lies, or why there is none.
pub fn maker_place(s: &[u8], x: Record) -> Result<Option<Part>, Refusal>
    ensures { told_part result ≡ field_answer (layout_of x) MakerCertificate 0 s.now }
{
    fields::find(s, x, Field::MakerCertificate, 0)
}

// The algorithm of the maker's signature.
pub fn algorithm(s: &[u8], x: Record) -> &[u8]
    ensures { PartOf s.entry result (handed_out (field_in (layout_of x) SealAlgorithm 0 s.now)) }
{
    fields::part(s, x, Field::SealAlgorithm, 0)
}

// Where the algorithm of the maker's signature lies, or why there is none.
pub fn algorithm_place(s: &[u8], x: Record) -> Result<Option<Part>, Refusal>
    ensures { told_part result ≡ field_answer (layout_of x) SealAlgorithm 0 s.now }
{
    fields::find(s, x, Field::SealAlgorithm, 0)
}

// The maker's signature.
pub fn signed_value(s: &[u8], x: Record) -> &[u8]
    ensures { PartOf s.entry result (handed_out (field_in (layout_of x) SealSignedValue 0 s.now)) }
{
    fields::part(s, x, Field::SealSignedValue, 0)
}

// Where the maker's signature lies, or why there is none.
pub fn signed_value_place(s: &[u8], x: Record) -> Result<Option<Part>, Refusal>
    ensures { told_part result ≡ field_answer (layout_of x) SealSignedValue 0 s.now }
{
    fields::find(s, x, Field::SealSignedValue, 0)
}
