// The layouts of the rules as a table: a row for each structure that has one, each member with its field's name, in the rules' order.
#![tactic(auto)]

ghost use Rattle.std.specs.Prelude.{◌≡◌};
ghost use Rattle.records.specs.Record.{custom_item};
ghost use Rattle.structures.specs.Structure.{row_of};
ghost use Rattle.rows.specs.Row.{members_of};

use primitives::{Content, Primitive, Word};
use structures::{Row, Structure};
use terms::Field;

// How many members a row has, filled up with blanks.
// Kept: no heap, so every row is an array of the longest length.
pub const MEMBERS: usize = 6;

// What stands next in a row; `Blank` fills it up. `Choice`: a primitive item, and of two items of one name the first where its content
// is the one that is given, else the second.
#[derive(Clone, Copy)]
pub enum Member {
    Blank,
    Known(Word),
    Leaf(Field, Primitive),
    Part(Field, Structure),
    Maybe(Field, Structure),
    Flag(Field),
    Choice {
        by: Field,
        primitive: Primitive,
        content: Content,
        name: Field,
        first: Structure,
        second: Structure,
    },
}

// The signature record: signed part; signer certificate; algorithm; signature; stamp.
fn signature() -> [Member; MEMBERS]
    ensures { row_of Row.Signature ≡ members_of result }
{
    [
        Member::Part(Field::SignedPart, Structure::SignedPart),
        Member::Leaf(Field::SignerCertificate, Primitive::Octets),
        Member::Leaf(Field::SignatureAlgorithm, Primitive::Identifier),
        Member::Leaf(Field::SignatureValue, Primitive::Bits),
        Member::Maybe(Field::Stamp, Structure::TaggedStamp),
        Member::Blank,
    ]
}

// The signed part: 4; seal; signing time; original digest; property text; custom data.
fn signed_part() -> [Member; MEMBERS]
    ensures { row_of Row.SignedPart ≡ members_of result }
{
    [
        Member::Known(Word::Version),
        Member::Part(Field::Seal, Structure::Seal),
        Member::Leaf(Field::SigningTime, Primitive::Time),
        Member::Leaf(Field::OriginalDigest, Primitive::Bits),
        Member::Leaf(Field::PropertyText, Primitive::Ia5),
        Member::Maybe(Field::SignedCustomData, Structure::TaggedCustomData),
    ]
}

// The seal: seal information; maker certificate; algorithm; signed value.
fn seal() -> [Member; MEMBERS]
    ensures { row_of Row.Seal ≡ members_of result }
{
    [
        Member::Part(Field::SealInformation, Structure::SealInformation),
        Member::Leaf(Field::MakerCertificate, Primitive::Octets),
        Member::Leaf(Field::SealAlgorithm, Primitive::Identifier),
        Member::Leaf(Field::SealSignedValue, Primitive::Bits),
        Member::Blank,
        Member::Blank,
    ]
}

// Seal information: header; seal id; property; picture; custom data.
fn seal_information() -> [Member; MEMBERS]
    ensures { row_of Row.SealInformation ≡ members_of result }
{
    [
        Member::Part(Field::Header, Structure::Header),
        Member::Leaf(Field::SealId, Primitive::Ia5),
        Member::Part(Field::Property, Structure::Property),
        Member::Part(Field::Picture, Structure::Picture),
        Member::Maybe(Field::SealCustomData, Structure::SealCustomData),
        Member::Blank,
    ]
}

// The header: "ES"; 4; vendor.
fn header() -> [Member; MEMBERS]
    ensures { row_of Row.Header ≡ members_of result }
{
    [
        Member::Known(Word::HeaderName),
        Member::Known(Word::Version),
        Member::Leaf(Field::Vendor, Primitive::AnyIa5),
        Member::Blank,
        Member::Blank,
        Member::Blank,
    ]
}

// The property: type; name; list kind and certificate list; created, start and end.
fn property() -> [Member; MEMBERS]
    ensures { row_of Row.Property ≡ members_of result }
{
    [
        Member::Leaf(Field::SealType, Primitive::Integer),
        Member::Leaf(Field::SealName, Primitive::AnyUtf8),
        Member::Choice {
            by: Field::ListKind,
            primitive: Primitive::ListKind,
            content: Content::Kind1,
            name: Field::CertificateList,
            first: Structure::Certificates,
            second: Structure::Digests,
        },
        Member::Leaf(Field::Created, Primitive::Time),
        Member::Leaf(Field::Start, Primitive::Time),
        Member::Leaf(Field::End, Primitive::Time),
    ]
}

// An entry of a kind 2 list: a type and a digest.
fn digest() -> [Member; MEMBERS]
    ensures { row_of Row.Digest ≡ members_of result }
{
    [
        Member::Leaf(Field::ListedType, Primitive::AnyPrintable),
        Member::Leaf(Field::ListedDigest, Primitive::Octets),
        Member::Blank,
        Member::Blank,
        Member::Blank,
        Member::Blank,
    ]
}

// The picture: type; data; width and height.
fn picture() -> [Member; MEMBERS]
    ensures { row_of Row.Picture ≡ members_of result }
{
    [
        Member::Leaf(Field::PictureType, Primitive::Ia5),
        Member::Leaf(Field::PictureData, Primitive::Octets),
        Member::Leaf(Field::Width, Primitive::Millimetres),
        Member::Leaf(Field::Height, Primitive::Millimetres),
        Member::Blank,
        Member::Blank,
    ]
}

// A custom item: identifier; critical; value.
fn custom_item(id: Field, critical: Field, value: Field) -> [Member; MEMBERS]
    ensures { custom_item id critical value ≡ members_of result }
{
    [
        Member::Leaf(id, Primitive::Identifier),
        Member::Flag(critical),
        Member::Leaf(value, Primitive::AnyOctets),
        Member::Blank,
        Member::Blank,
        Member::Blank,
    ]
}

// A custom item of a seal.
fn seal_custom_item() -> [Member; MEMBERS]
    ensures { row_of Row.SealCustomItem ≡ members_of result }
{
    custom_item(
        Field::SealCustomId,
        Field::SealCustomCritical,
        Field::SealCustomValue,
    )
}

// A custom item of a signed part.
fn signed_custom_item() -> [Member; MEMBERS]
    ensures { row_of Row.SignedCustomItem ≡ members_of result }
{
    custom_item(
        Field::SignedCustomId,
        Field::SignedCustomCritical,
        Field::SignedCustomValue,
    )
}

// The row of a name.
// Kept: which row an enum's case has; a table of closures would need a number in the place of the name.
pub fn members_of(x: Row) -> [Member; MEMBERS]
    ensures { row_of x ≡ members_of result }
{
    match x {
        Row::Signature => signature(),
        Row::SignedPart => signed_part(),
        Row::Seal => seal(),
        Row::SealInformation => seal_information(),
        Row::Header => header(),
        Row::Property => property(),
        Row::Digest => digest(),
        Row::Picture => picture(),
        Row::SealCustomItem => seal_custom_item(),
        Row::SignedCustomItem => signed_custom_item(),
    }
}
