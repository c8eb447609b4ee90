// What the findings say at a moment.
#![tactic(auto)]

ghost use Rattle.std.specs.Prelude.{◌≡◌};
ghost use Rattle.moments.specs.Moment.{moment_in};
ghost use Rattle.verdicts.specs.Findings.{between, within_dates, revoked_by, in_force, sound};

use moments::Moment;
use verdicts::{CertificateFacts, Dates};

// Whether a moment lies from a first one to a last one, both belonging to it.
#[tactic(auto, unfolding(verdicts::specs::Findings::between))]
pub fn is_between(first: Moment, last: Moment, t: Moment) -> bool
    ensures { result ≡ between (moment_in first) (moment_in last) (moment_in t) }
{
    moments::is_not_later(first, t) && moments::is_not_later(t, last)
}

// Whether a moment lies within a certificate's dates.
#[tactic(auto, unfolding(verdicts::specs::Findings::within_dates))]
pub fn is_within_dates(d: Dates, t: Moment) -> bool
    ensures { result ≡ within_dates d (moment_in t) }
{
    is_between(moments::of_finding(d.first), moments::of_finding(d.last), t)
}

// Whether something is revoked at or before a moment.
#[tactic(auto, unfolding(verdicts::specs::Findings::revoked_by))]
pub fn is_revoked_by(x: Option<u64>, t: Moment) -> bool
    ensures { result ≡ revoked_by x (moment_in t) }
{
    x.is_some_and(|n| moments::is_not_later(moments::of_finding(n), t))
}

// Whether a certificate is in force at a moment.
#[tactic(auto, unfolding(verdicts::specs::Findings::in_force))]
pub fn is_in_force(c: CertificateFacts, t: Moment) -> bool
    ensures { result ≡ in_force c (moment_in t) }
{
    is_within_dates(c.dates, t) && !is_revoked_by(c.revocation, t)
}

// Whether a certificate's chain and usage are good.
#[tactic(auto, unfolding(verdicts::specs::Findings::sound))]
pub fn is_sound(c: CertificateFacts) -> bool
    ensures { result ≡ sound c }
{
    c.chain && c.usage
}
