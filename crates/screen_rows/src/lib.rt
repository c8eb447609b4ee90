// The rows of a screen: the fields of a signature record in the order of the record, each with its depth and how it is shown.
#![tactic(auto)]

ghost use Rattle.std.specs.Prelude.{◌≡◌};
ghost use Rattle.screen_rows.specs.Screen.{row_on};

use terms::Field;

// How a field's bytes are shown.
#[derive(Clone, Copy)]
pub enum Shows {
    Structure,
    List,
    Text,
    Time,
    Number,
    Identifier,
    Bytes,
    Critical,
}

// A line without a record: its field, how many structures and lists of the record it stands in, and how it is shown.
#[derive(Clone, Copy)]
pub struct Row(pub Field, pub usize, pub Shows);

// How many lines there are.
pub const LINES: usize = terms::NAMES;

// The rows, line by line.
static ROWS: [Row; LINES] = [
    Row(Field::SignedPart, 0, Shows::Structure),
    Row(Field::Seal, 1, Shows::Structure),
    Row(Field::SealInformation, 2, Shows::Structure),
    Row(Field::Header, 3, Shows::Structure),
    Row(Field::Vendor, 4, Shows::Text),
    Row(Field::SealId, 3, Shows::Text),
    Row(Field::Property, 3, Shows::Structure),
    Row(Field::SealType, 4, Shows::Number),
    Row(Field::SealName, 4, Shows::Text),
    Row(Field::ListKind, 4, Shows::Number),
    Row(Field::CertificateList, 4, Shows::List),
    Row(Field::ListedCertificate, 5, Shows::Bytes),
    Row(Field::ListedEntry, 5, Shows::Structure),
    Row(Field::ListedType, 6, Shows::Text),
    Row(Field::ListedDigest, 6, Shows::Bytes),
    Row(Field::Created, 4, Shows::Time),
    Row(Field::Start, 4, Shows::Time),
    Row(Field::End, 4, Shows::Time),
    Row(Field::Picture, 3, Shows::Structure),
    Row(Field::PictureType, 4, Shows::Text),
    Row(Field::PictureData, 4, Shows::Bytes),
    Row(Field::Width, 4, Shows::Number),
    Row(Field::Height, 4, Shows::Number),
    Row(Field::SealCustomData, 3, Shows::List),
    Row(Field::SealCustomItem, 4, Shows::Structure),
    Row(Field::SealCustomId, 5, Shows::Identifier),
    Row(Field::SealCustomCritical, 5, Shows::Critical),
    Row(Field::SealCustomValue, 5, Shows::Bytes),
    Row(Field::MakerCertificate, 2, Shows::Bytes),
    Row(Field::SealAlgorithm, 2, Shows::Identifier),
    Row(Field::SealSignedValue, 2, Shows::Bytes),
    Row(Field::SigningTime, 1, Shows::Time),
    Row(Field::OriginalDigest, 1, Shows::Bytes),
    Row(Field::PropertyText, 1, Shows::Text),
    Row(Field::SignedCustomData, 1, Shows::List),
    Row(Field::SignedCustomItem, 2, Shows::Structure),
    Row(Field::SignedCustomId, 3, Shows::Identifier),
    Row(Field::SignedCustomCritical, 3, Shows::Critical),
    Row(Field::SignedCustomValue, 3, Shows::Bytes),
    Row(Field::SignerCertificate, 0, Shows::Bytes),
    Row(Field::SignatureAlgorithm, 0, Shows::Identifier),
    Row(Field::SignatureValue, 0, Shows::Bytes),
    Row(Field::Stamp, 0, Shows::Bytes),
];

// The row of a line; past the last one, the first.
pub fn row_on(line: usize) -> Row
    ensures { result ≡ row_on line }
{
    if line < LINES { ROWS[line] } else { ROWS[0] }
}
