// Whether every time in the findings is a real date.
#![tactic(auto)]

ghost use Rattle.std.specs.Prelude.{◌≡◌};
ghost use Rattle.terms.specs.Answer.{every};
ghost use Rattle.contents.specs.Time.{is_real};
ghost use Rattle.verdicts.specs.Findings.{revocation_times, certificate_times, stamp_times, all_real};

use verdicts::{CertificateFacts, Findings, Stamping};

// Whether a revocation has no time, or a real one.
#[tactic(auto, unfolding(verdicts::specs::Findings::revocation_times, terms::specs::Answer::every))]
fn is_revocation_real(x: Option<u64>) -> bool
    ensures { result ≡ every is_real (revocation_times x) }
{
    x.is_none_or(|n| times::is_real(n))
}

// Whether every time of a certificate is real.
#[tactic(auto, unfolding(verdicts::specs::Findings::certificate_times, terms::specs::Answer::every))]
fn is_certificate_real(c: CertificateFacts) -> bool
    ensures { result ≡ every is_real (certificate_times c) }
{
    times::is_real(c.dates.first)
        && times::is_real(c.dates.last)
        && is_revocation_real(c.revocation)
}

// Whether a stamp has no time, or a real one.
#[tactic(auto, unfolding(verdicts::specs::Findings::stamp_times, terms::specs::Answer::every))]
fn is_stamp_real(x: Stamping) -> bool
    ensures { result ≡ every is_real (stamp_times x) }
{
    match x {
        Stamping::Unchecked | Stamping::Bad => true,
        Stamping::Good(n) => times::is_real(n),
    }
}

// Whether every time in the findings is a real date, also one that no step looks at.
#[tactic(auto, using(crate::specs::Laws::five))]
pub fn is_all_real(f: Findings) -> bool
    ensures { result ≡ all_real f }
{
    times::is_real(f.now)
        && is_certificate_real(f.maker)
        && is_certificate_real(f.signer)
        && is_revocation_real(f.seal.withdrawn)
        && is_stamp_real(f.stamp.state)
}
