// The findings from 19 numbers in a row.
#![tactic(auto)]

ghost use Rattle.std.specs.Prelude.{◌≡◌, ◌<◌};
ghost use Rattle.finding_rows.specs.Row.{numbers_count};
ghost use Rattle.given_findings.specs.Given.{says, revocation_at, certificate_at, stamp_at, findings_in};

use verdicts::{CertificateFacts, Dates, Findings, SealFacts, StampFacts, Stamping};

// Whether a number is 1.
#[tactic(auto, unfolding(crate::specs::Given::says))]
fn says(xs: &[u64], k: usize) -> bool
    ensures { result ≡ says xs.now k }
{
    finding_rows::number_at(xs, k) == 1
}

// A revocation: whether there is one, and its time.
#[tactic(auto, unfolding(crate::specs::Given::revocation_at, terms::specs::Answer::pick))]
fn revocation(xs: &[u64], k: usize) -> Option<u64>
    requires { k < numbers_count }
    ensures { result ≡ revocation_at xs.now k }
{
    says(xs, k).then(|| finding_rows::number_at(xs, k + 1))
}

// What was found of a certificate.
#[tactic(auto, unfolding(crate::specs::Given::certificate_at))]
fn certificate(xs: &[u64], k: usize) -> CertificateFacts
    requires { k < 10 }
    ensures { result ≡ certificate_at xs.now k }
{
    CertificateFacts {
        chain: says(xs, k),
        usage: says(xs, k + 1),
        dates: Dates {
            first: finding_rows::number_at(xs, k + 2),
            last: finding_rows::number_at(xs, k + 3),
        },
        revocation: revocation(xs, k + 4),
    }
}

// What was found of the stamp.
#[tactic(auto, unfolding(crate::specs::Given::stamp_at, crate::specs::Given::says, terms::specs::Answer::pick))]
fn stamp(xs: &[u64], k: usize) -> Stamping
    requires { k < numbers_count }
    ensures { result ≡ stamp_at xs.now k }
{
    match finding_rows::number_at(xs, k) {
        2 => Stamping::Good(finding_rows::number_at(xs, k + 1)),
        1 => Stamping::Bad,
        _ => Stamping::Unchecked,
    }
}

// The findings; a row that is too short has zeros at its end.
#[tactic(auto, unfolding(crate::specs::Given::findings_in))]
pub fn findings(xs: &[u64]) -> Findings
    ensures { result ≡ findings_in xs.now }
{
    Findings {
        signature: says(xs, 0),
        sealing: says(xs, 1),
        now: finding_rows::number_at(xs, 2),
        maker: certificate(xs, 3),
        signer: certificate(xs, 9),
        seal: SealFacts {
            withdrawn: revocation(xs, 15),
        },
        stamp: StampFacts {
            state: stamp(xs, 17),
        },
    }
}
