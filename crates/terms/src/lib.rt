// The names and the numbers of the rules: a record's fields, and why something is refused.
#![tactic(auto)]

ghost use Rattle.std.specs.Prelude.{◌≡◌};
ghost use Rattle.terms.specs.Numbers.{reason_number};
ghost use Rattle.terms.specs.Answer.{refusal_at};

use std::fmt;

// What a seal and a signature record hold, by name: the seal's parts in the order of a seal, then the signature record's.
// A list's items are counted by an index beside the name.
#[derive(Clone, Copy, PartialEq, Eq, Debug)]
pub enum Field {
    SealInformation,
    Header,
    Vendor,
    SealId,
    Property,
    SealType,
    SealName,
    ListKind,
    CertificateList,
    ListedCertificate,
    ListedEntry,
    ListedType,
    ListedDigest,
    Created,
    Start,
    End,
    Picture,
    PictureType,
    PictureData,
    Width,
    Height,
    SealCustomData,
    SealCustomItem,
    SealCustomId,
    SealCustomCritical,
    SealCustomValue,
    MakerCertificate,
    SealAlgorithm,
    SealSignedValue,
    SignedPart,
    Seal,
    SigningTime,
    OriginalDigest,
    PropertyText,
    SignedCustomData,
    SignedCustomItem,
    SignedCustomId,
    SignedCustomCritical,
    SignedCustomValue,
    SignerCertificate,
    SignatureAlgorithm,
    SignatureValue,
    Stamp,
}

// How many names there are.
pub const NAMES: usize = 43;

// Why something is refused, in the order of the rules' numbers.
#[derive(Clone, Copy, PartialEq, Eq, Debug)]
pub enum Reason {
    ItemMissing = 1,
    OtherTag,
    BadLength,
    PastEnd,
    LeftOver,
    BadInteger,
    NotAllowed,
    NotEs,
    BadCharacter,
    BadTime,
    BadIdentifier,
    BadBits,
    BadBoolean,
    NoBytes,
    NoItem,
    TooManyItems,
    TooLarge,
    UnrealTime,
    BadSheet,
    NoRoom,
}

impl Reason {
    // The number that the rules give it.
    pub fn number(self) -> u8
        ensures { result ≡ reason_number self }
    {
        self as u8
    }

    // A refusal for this reason, at a place.
    pub fn at(self, place: usize) -> Refusal
        ensures { result ≡ refusal_at self place }
    {
        Refusal {
            reason: self,
            place,
        }
    }
}

// A refusal: why, and where.
#[derive(Clone, Copy, PartialEq, Eq, Debug)]
pub struct Refusal {
    pub reason: Reason,
    pub place: usize,
}

// The number and the place, as they stand on a line.
impl fmt::Display for Refusal {
    fn fmt<W: fmt::Write>(&self, f: &mut fmt::Formatter<W>) -> fmt::Result {
        let number = self.reason.number();
        let place = self.place;
        write!(f, "{number} {place}")
    }
}

// The most bytes of a record, header included.
pub const LARGEST_RECORD: usize = 65535;

// The most items of a list.
pub const MOST_ITEMS: usize = 64;

// Whether a list or a string may have no member.
pub const MAY_BE_EMPTY: bool = true;

pub const NEVER_EMPTY: bool = false;
