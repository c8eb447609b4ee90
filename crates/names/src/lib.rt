// The fields by their numbers.
#![tactic(auto)]

ghost use Rattle.std.specs.Prelude.{◌≡◌};
ghost use Rattle.terms.specs.Names.{name_of};

use terms::Field;

// The field of a number; past the last one, the first.
// Kept: the number is C's, and every number has an answer.
pub fn name_of(number: u8) -> Field
    ensures { result ≡ name_of number }
{
    match number {
        0 => Field::SealInformation,
        1 => Field::Header,
        2 => Field::Vendor,
        3 => Field::SealId,
        4 => Field::Property,
        5 => Field::SealType,
        6 => Field::SealName,
        7 => Field::ListKind,
        8 => Field::CertificateList,
        9 => Field::ListedCertificate,
        10 => Field::ListedEntry,
        11 => Field::ListedType,
        12 => Field::ListedDigest,
        13 => Field::Created,
        14 => Field::Start,
        15 => Field::End,
        16 => Field::Picture,
        17 => Field::PictureType,
        18 => Field::PictureData,
        19 => Field::Width,
        20 => Field::Height,
        21 => Field::SealCustomData,
        22 => Field::SealCustomItem,
        23 => Field::SealCustomId,
        24 => Field::SealCustomCritical,
        25 => Field::SealCustomValue,
        26 => Field::MakerCertificate,
        27 => Field::SealAlgorithm,
        28 => Field::SealSignedValue,
        29 => Field::SignedPart,
        30 => Field::Seal,
        31 => Field::SigningTime,
        32 => Field::OriginalDigest,
        33 => Field::PropertyText,
        34 => Field::SignedCustomData,
        35 => Field::SignedCustomItem,
        36 => Field::SignedCustomId,
        37 => Field::SignedCustomCritical,
        38 => Field::SignedCustomValue,
        39 => Field::SignerCertificate,
        40 => Field::SignatureAlgorithm,
        41 => Field::SignatureValue,
        42 => Field::Stamp,
        _ => Field::SealInformation,
    }
}
