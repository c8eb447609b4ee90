// The primitive items of the rules by name: what each holds, and its tag.
#![tactic(auto)]

ghost use Rattle.std.specs.Prelude.{◌≡◌};
ghost use Rattle.contents.specs.Leaves.{only};
ghost use Rattle.tags.specs.Tag.{tag_byte};
ghost use Rattle.primitives.specs.Primitive.{leaf_of, known_of};

use tags::Tag;

// What a primitive item holds; `Any`: it may have no bytes. The header's name and the version have one content only.
#[derive(Clone, Copy)]
pub enum Primitive {
    Octets,
    AnyOctets,
    Bits,
    Ia5,
    AnyIa5,
    AnyPrintable,
    AnyUtf8,
    Identifier,
    Time,
    Integer,
    ListKind,
    Millimetres,
    Critical,
    HeaderName,
    Version,
}

// A member whose content is known: the header's name and the version.
#[derive(Clone, Copy)]
pub enum Word {
    HeaderName,
    Version,
}

// A content that decides between two items: of the list kind, 1.
#[derive(Clone, Copy)]
pub enum Content {
    Kind1,
}

// The tag of a primitive item.
pub fn tag_of(p: Primitive) -> Tag
    ensures { tag_byte result ≡ (leaf_of p).tag }
{
    match p {
        Primitive::Octets => Tag::OctetString,
        Primitive::AnyOctets => Tag::OctetString,
        Primitive::Bits => Tag::BitString,
        Primitive::Ia5 => Tag::Ia5String,
        Primitive::AnyIa5 => Tag::Ia5String,
        Primitive::AnyPrintable => Tag::PrintableString,
        Primitive::AnyUtf8 => Tag::Utf8String,
        Primitive::Identifier => Tag::Identifier,
        Primitive::Time => Tag::Time,
        Primitive::Integer => Tag::Integer,
        Primitive::ListKind => Tag::Integer,
        Primitive::Millimetres => Tag::Integer,
        Primitive::Critical => Tag::Boolean,
        Primitive::HeaderName => Tag::Ia5String,
        Primitive::Version => Tag::Integer,
    }
}

// The primitive item that a known member is.
pub fn known_as(w: Word) -> Primitive
    ensures { leaf_of result ≡ only (known_of w) }
{
    match w {
        Word::HeaderName => Primitive::HeaderName,
        Word::Version => Primitive::Version,
    }
}
