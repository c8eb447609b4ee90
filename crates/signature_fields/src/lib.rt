// The fields of a signature record by name, without its seal's: each the part of the lent record that it is, and, beside it, where that part lies
// or why there is none.
// Kept: an accessor for each field by its name, as the rules ask and docs/FIELDS.md lists them; what they share is one function.
#![tactic(auto)]

ghost use Rattle.std.specs.Prelude.{◌≡◌};
ghost use Rattle.terms.specs.declared.Field.TheVariants.{SignedPart, SigningTime, OriginalDigest, PropertyText, SignedCustomId, SignedCustomValue, SignerCertificate, SignatureAlgorithm, SignatureValue, Stamp};
ghost use Rattle.records.specs.Record.{signature};
ghost use Rattle.records.specs.Handing.{field_in, field_answer, handed_out, told_part};
ghost use Rattle.records.specs.Part.{PartOf};

use records::{Part, Record};
use terms::{Field, Refusal};

// What the signer signed: the signed part, with its own tag and length.
pub fn signed_bytes(s: &[u8]) -> &[u8]
    ensures { PartOf s.entry result (handed_out (field_in signature SignedPart 0 s.now)) }
{
    fields::part(s, Record::Signature, Field::SignedPart, 0)
}

// Where what the signer signed lies, or why there is none.
pub fn signed_bytes_place(s: &[u8]) -> Result<Option<Part>, Refusal>
    ensures { told_part result ≡ field_answer signature SignedPart 0 s.now }
{
    fields::find(s, Record::Signature, Field::SignedPart, 0)
}

// The time of signing.
pub fn signing_time(s: &[u8]) -> &[u8]
    ensures { PartOf s.entry result (handed_out (field_in signature SigningTime 0 s.now)) }
{
    fields::part(s, Record::Signature, Field::SigningTime, 0)
}

// Where the time of signing lies, or why there is none.
pub fn signing_time_place(s: &[u8]) -> Result<Option<Part>, Refusal>
    ensures { told_part result ≡ field_answer signature SigningTime 0 s.now }
{
    fields::find(s, Record::Signature, Field::SigningTime, 0)
}

// The digest of the original.
pub fn original_digest(s: &[u8]) -> &[u8]
    ensures { PartOf s.entry result (handed_out (field_in signature OriginalDigest 0 s.now)) }
{
    fields::part(s, Record::Signature, Field::OriginalDigest, 0)
}

// Where the digest of the original lies, or why there is none.
pub fn original_digest_place(s: &[u8]) -> Result<Option<Part>, Refusal>
    ensures { told_part result ≡ field_answer signature OriginalDigest 0 s.now }
{
    fields::find(s, Record::Signature, Field::OriginalDigest, 0)
}

// The property text.
pub fn property_text(s: &[u8]) -> &[u8]
    ensures { PartOf s.entry result (handed_out (field_in signature PropertyText 0 s.now)) }
{
    fields::part(s, Record::Signature, Field::PropertyText, 0)
}

// Where the property text lies, or why there is none.
pub fn property_text_place(s: &[u8]) -> Result<Option<Part>, Refusal>
    ensures { told_part result ≡ field_answer signature PropertyText 0 s.now }
{
    fields::find(s, Record::Signature, Field::PropertyText, 0)
}

// The identifier of a custom item.
pub fn custom_id(s: &[u8], index: usize) -> &[u8]
    ensures { PartOf s.entry result (handed_out (field_in signature SignedCustomId index s.now)) }
{
    fields::part(s, Record::Signature, Field::SignedCustomId, index)
}

// Where the identifier of a custom item lies, or why there is none.
pub fn custom_id_place(s: &[u8], index: usize) -> Result<Option<Part>, Refusal>
    ensures { told_part result ≡ field_answer signature SignedCustomId index s.now }
{
    fields::find(s, Record::Signature, Field::SignedCustomId, index)
}

// The value of a custom item.
pub fn custom_value(s: &[u8], index: usize) -> &[u8]
    ensures { PartOf s.entry result (handed_out (field_in signature SignedCustomValue index s.now)) }
{
    fields::part(s, Record::Signature, Field::SignedCustomValue, index)
}

// Where the value of a custom item lies, or why there is none.
pub fn custom_value_place(s: &[u8], index: usize) -> Result<Option<Part>, Refusal>
    ensures { told_part result ≡ field_answer signature SignedCustomValue index s.now }
{
    fields::find(s, Record::Signature, Field::SignedCustomValue, index)
}

// The signer's certificate.
pub fn signer(s: &[u8]) -> &[u8]
    ensures { PartOf s.entry result (handed_out (field_in signature SignerCertificate 0 s.now)) }
{
    fields::part(s, Record::Signature, Field::SignerCertificate, 0)
}

// Where the signer's certificate lies, or why there is none.
pub fn signer_place(s: &[u8]) -> Result<Option<Part>, Refusal>
    ensures { told_part result ≡ field_answer signature SignerCertificate 0 s.now }
{
    fields::find(s, Record::Signature, Field::SignerCertificate, 0)
}

// The algorithm of the signature.
pub fn algorithm(s: &[u8]) -> &[u8]
    ensures { PartOf s.entry result (handed_out (field_in signature SignatureAlgorithm 0 s.now)) }
{
    fields::part(s, Record::Signature, Field::SignatureAlgorithm, 0)
}

// Where the algorithm of the signature lies, or why there is none.
pub fn algorithm_place(s: &[u8]) -> Result<Option<Part>, Refusal>
    ensures { told_part result ≡ field_answer signature SignatureAlgorithm 0 s.now }
{
    fields::find(s, Record::Signature, Field::SignatureAlgorithm, 0)
}

// The signature.
pub fn value(s: &[u8]) -> &[u8]
    ensures { PartOf s.entry result (handed_out (field_in signature SignatureValue 0 s.now)) }
{
    fields::part(s, Record::Signature, Field::SignatureValue, 0)
}

// Where the signature lies, or why there is none.
pub fn value_place(s: &[u8]) -> Result<Option<Part>, Refusal>
    ensures { told_part result ≡ field_answer signature SignatureValue 0 s.now }
{
    fields::find(s, Record::Signature, Field::SignatureValue, 0)
}

// The stamp.
pub fn stamp(s: &[u8]) -> &[u8]
    ensures { PartOf s.entry result (handed_out (field_in signature Stamp 0 s.now)) }
{
    fields::part(s, Record::Signature, Field::Stamp, 0)
}

// Where the stamp lies, or why there is none.
pub fn stamp_place(s: &[u8]) -> Result<Option<Part>, Refusal>
    ensures { told_part result ≡ field_answer signature Stamp 0 s.now }
{
    fields::find(s, Record::Signature, Field::Stamp, 0)
}
