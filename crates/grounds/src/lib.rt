// What a verdict rests on in a record, from one reading of it.
#![tactic(auto)]

ghost use Rattle.std.specs.Prelude.{◌≡◌};
ghost use Rattle.terms.specs.declared.Field.TheVariants.{OriginalDigest, Stamp};
ghost use Rattle.terms.specs.Answer.{same};
ghost use Rattle.contents.specs.Time.{moment_of};
ghost use Rattle.records.specs.Handing.{layout_of};
ghost use Rattle.fields.specs.Handed.{part_under};
ghost use Rattle.moments.specs.Moment.{moment_in};
ghost use Rattle.matching.specs.Match.{bytes_at, match_under};
ghost use Rattle.grounds.specs.Ground.{Leads, GroundOf, sought_under, is_part};

use moments::Moment;
use records::Record;
use terms::{Field, LARGEST_RECORD, Refusal};

// The seal's period, the time of signing, whether the signer is in the list, whether the original's digest is the given one, and whether there is a stamp.
#[derive(Clone, Copy)]
pub struct Grounds {
    pub start: Moment,
    pub end: Moment,
    pub signing: Moment,
    pub listed: bool,
    pub alike: bool,
    pub stamped: bool,
}

// The moment that a field says.
fn moment_under(s: &[u8], places: &[usize], f: Field) -> Moment
    ensures { moment_in result ≡ moment_of (bytes_at s.now (part_under f places.now)) }
{
    moments::of_record(fields::cut_under(s, places, f))
}

// Whether the signer is in the list: its certificate where the kind is 1, else its digest.
#[tactic(auto, unfolding(crate::specs::Ground::sought_under, terms::specs::Answer::pick))]
fn is_listed(s: &[u8], places: &[usize], signer: &[u8]) -> bool
    ensures { result ≡ is_part (match_under (sought_under signer.now s.now places.now) s.now places.now) }
{
    if matching::is_kind_1(s, places) {
        let certificate = fields::cut_under(s, places, Field::SignerCertificate);
        return matching::find_under(s, places, certificate).is_some();
    }
    matching::find_under(s, places, signer).is_some()
}

// Whether the original's digest is the given one.
fn is_alike(s: &[u8], places: &[usize], original: &[u8]) -> bool
    ensures { result ≡ same original.now (bytes_at s.now (part_under OriginalDigest places.now)) }
{
    windows::is_same(
        original,
        fields::cut_under(s, places, Field::OriginalDigest),
    )
}

// Whether there is a stamp.
fn is_stamped(places: &[usize]) -> bool
    ensures { result ≡ is_part (part_under Stamp places.now) }
{
    fields::under(places, Field::Stamp).is_some()
}

// The grounds that a table of places leads to.
fn grounds_in(s: &[u8], places: &[usize], original: &[u8], signer: &[u8]) -> Grounds
    ensures { Leads s.now places.now original.now signer.now result }
{
    Grounds {
        start: moment_under(s, places, Field::Start),
        end: moment_under(s, places, Field::End),
        signing: moment_under(s, places, Field::SigningTime),
        listed: is_listed(s, places, signer),
        alike: is_alike(s, places, original),
        stamped: is_stamped(places),
    }
}

// A record's grounds, with the given digests of the original and of the signer.
pub fn read(s: &[u8], x: Record, original: &[u8], signer: &[u8]) -> Result<Grounds, Refusal>
    ensures { GroundOf (layout_of x) s.now original.now signer.now result }
{
    let reading = readers::read(s, structures::row_of(x), LARGEST_RECORD, 0);
    reading.outcome?;
    Ok(grounds_in(s, &reading.places, original, signer))
}
