// The tags of the rules, and their bytes.
#![tactic(auto)]

ghost use Rattle.std.specs.Prelude.{◌≡◌};
ghost use Rattle.tags.specs.Tag.{tag_byte, Tells};

// The tags of the rules.
#[derive(Clone, Copy, PartialEq, Eq, Debug)]
pub enum Tag {
    Boolean,
    Integer,
    BitString,
    OctetString,
    Identifier,
    Utf8String,
    PrintableString,
    Ia5String,
    Time,
    Sequence,
    Context0,
}

// The byte of a tag.
pub fn tag_byte(t: Tag) -> u8
    ensures { result ≡ tag_byte t }
{
    match t {
        Tag::Boolean => 0x01,
        Tag::Integer => 0x02,
        Tag::BitString => 0x03,
        Tag::OctetString => 0x04,
        Tag::Identifier => 0x06,
        Tag::Utf8String => 0x0c,
        Tag::PrintableString => 0x13,
        Tag::Ia5String => 0x16,
        Tag::Time => 0x18,
        Tag::Sequence => 0x30,
        Tag::Context0 => 0xa0,
    }
}

// The tag of a byte, if it is one of the rules'.
pub fn tag_of(b: u8) -> Option<Tag>
    ensures { Tells b result }
{
    match b {
        0x01 => Some(Tag::Boolean),
        0x02 => Some(Tag::Integer),
        0x03 => Some(Tag::BitString),
        0x04 => Some(Tag::OctetString),
        0x06 => Some(Tag::Identifier),
        0x0c => Some(Tag::Utf8String),
        0x13 => Some(Tag::PrintableString),
        0x16 => Some(Tag::Ia5String),
        0x18 => Some(Tag::Time),
        0x30 => Some(Tag::Sequence),
        0xa0 => Some(Tag::Context0),
        _ => None,
    }
}
