// The structures of the rules by name, and how each is built: a primitive item, a row in a tag, a list, or an item in a tag of its own.
#![tactic(auto)]

ghost use Rattle.std.specs.Prelude.{◌≡◌};
ghost use Rattle.tags.specs.Tag.{tag_byte};
ghost use Rattle.layouts.specs.Layout.{tag_of};
ghost use Rattle.records.specs.Handing.{layout_of as recordLayout};
ghost use Rattle.structures.specs.Structure.{row_of, layout_of, item_of};

use primitives::Primitive;
use records::Record;
use tags::Tag;
use terms::{Field, MAY_BE_EMPTY, MOST_ITEMS, NEVER_EMPTY};

// A run of members.
#[derive(Clone, Copy)]
pub enum Row {
    Signature,
    SignedPart,
    Seal,
    SealInformation,
    Header,
    Property,
    Digest,
    Picture,
    SealCustomItem,
    SignedCustomItem,
}

// An item that has a row, stands in a list or stands in a tag of its own.
#[derive(Clone, Copy)]
pub enum Structure {
    Signature,
    SignedPart,
    Seal,
    SealInformation,
    Header,
    Property,
    Certificates,
    Certificate,
    Digests,
    Digest,
    Picture,
    SealCustomData,
    SealCustomItem,
    TaggedCustomData,
    SignedCustomData,
    SignedCustomItem,
    TaggedStamp,
    Stamp,
}

// How an item is built: its tag, and what stands in it. A list: whether it may be empty, the most items, their name, and an item.
#[derive(Clone, Copy)]
pub enum Build {
    Leaf(Primitive),
    Node(Tag, Row),
    List {
        tag: Tag,
        empty: bool,
        most: usize,
        name: Field,
        each: Structure,
    },
    Wrap(Tag, Structure),
}

// The row of a record.
pub fn row_of(x: Record) -> Row
    ensures { row_of result ≡ recordLayout x }
{
    match x {
        Record::Seal => Row::Seal,
        Record::Signature => Row::Signature,
    }
}

// How each is built.
#[tactic(auto, using(crate::specs::Laws::built))]
pub fn build_of(x: Structure) -> Build
    ensures { layout_of x ≡ item_of result }
{
    match x {
        Structure::Signature => Build::Node(Tag::Sequence, Row::Signature),
        Structure::SignedPart => Build::Node(Tag::Sequence, Row::SignedPart),
        Structure::Seal => Build::Node(Tag::Sequence, Row::Seal),
        Structure::SealInformation => Build::Node(Tag::Sequence, Row::SealInformation),
        Structure::Header => Build::Node(Tag::Sequence, Row::Header),
        Structure::Property => Build::Node(Tag::Sequence, Row::Property),
        Structure::Certificates => Build::List {
            tag: Tag::Sequence,
            empty: NEVER_EMPTY,
            most: MOST_ITEMS,
            name: Field::ListedCertificate,
            each: Structure::Certificate,
        },
        Structure::Certificate => Build::Leaf(Primitive::Octets),
        Structure::Digests => Build::List {
            tag: Tag::Sequence,
            empty: NEVER_EMPTY,
            most: MOST_ITEMS,
            name: Field::ListedEntry,
            each: Structure::Digest,
        },
        Structure::Digest => Build::Node(Tag::Sequence, Row::Digest),
        Structure::Picture => Build::Node(Tag::Sequence, Row::Picture),
        Structure::SealCustomData => Build::List {
            tag: Tag::Sequence,
            empty: MAY_BE_EMPTY,
            most: MOST_ITEMS,
            name: Field::SealCustomItem,
            each: Structure::SealCustomItem,
        },
        Structure::SealCustomItem => Build::Node(Tag::Sequence, Row::SealCustomItem),
        Structure::TaggedCustomData => Build::Wrap(Tag::Context0, Structure::SignedCustomData),
        Structure::SignedCustomData => Build::List {
            tag: Tag::Sequence,
            empty: MAY_BE_EMPTY,
            most: MOST_ITEMS,
            name: Field::SignedCustomItem,
            each: Structure::SignedCustomItem,
        },
        Structure::SignedCustomItem => Build::Node(Tag::Sequence, Row::SignedCustomItem),
        Structure::TaggedStamp => Build::Wrap(Tag::Context0, Structure::Stamp),
        Structure::Stamp => Build::Leaf(Primitive::Bits),
    }
}

// The tag that an item begins with.
pub fn tag_of(x: Structure) -> Tag
    ensures { tag_byte result ≡ tag_of (layout_of x) }
{
    match build_of(x) {
        Build::Leaf(p) => primitives::tag_of(p),
        Build::Node(t, _) => t,
        Build::List { tag, .. } => tag,
        Build::Wrap(t, _) => t,
    }
}
