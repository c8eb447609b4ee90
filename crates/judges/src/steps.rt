// The steps: each passes or not, as its row of the table says.
ghost use Rattle.verdicts.specs.declared.Verdict.TheVariants.{SignatureBad, SignerUnlisted, SealBad, MakerBad, MakerOutOfForce, OutsidePeriod, SealWithdrawn, SignerBad, OutsideDates, SignerRevoked, DigestDiffers, StampBad, AfterStamp, SignerOutAtStamp};
ghost use Rattle.verdicts.specs.Verdict.{signature_rules, seal_rules};
ghost use Rattle.judges.specs.Step.{Tells, Stamped};

use grounds::Grounds;
use moments::Moment;
use verdicts::{Findings, Stamping};

// b: the signature value is good.
pub fn signature_is_good(g: Grounds, f: Findings) -> bool
    ensures { Tells signature_rules SignatureBad g f result }
{
    f.signature
}

// c: the signer is in the list.
pub fn signer_is_listed(g: Grounds, f: Findings) -> bool
    ensures { Tells signature_rules SignerUnlisted g f result }
{
    g.listed
}

// d: the seal's signature value is good.
pub fn seal_is_good(g: Grounds, f: Findings) -> bool
    ensures tells { Tells signature_rules SealBad g f result }
    ensures tells_2 { Tells seal_rules SealBad g f result }
{
    f.sealing
}

// d: the maker's chain and usage are good.
pub fn maker_is_good(g: Grounds, f: Findings) -> bool
    ensures tells { Tells signature_rules MakerBad g f result }
    ensures tells_2 { Tells seal_rules MakerBad g f result }
{
    findings::is_sound(f.maker)
}

// d: the signing time is within the seal's period.
pub fn signed_in_period(g: Grounds, f: Findings) -> bool
    ensures { Tells signature_rules OutsidePeriod g f result }
{
    findings::is_between(g.start, g.end, g.signing)
}

// d: the seal is not withdrawn at or before signing.
pub fn seal_stands(g: Grounds, f: Findings) -> bool
    ensures { Tells signature_rules SealWithdrawn g f result }
{
    !findings::is_revoked_by(f.seal.withdrawn, g.signing)
}

// e: the signer's chain and usage are good.
pub fn signer_is_good(g: Grounds, f: Findings) -> bool
    ensures { Tells signature_rules SignerBad g f result }
{
    findings::is_sound(f.signer)
}

// f: the signing time is within the signer's dates.
pub fn signed_in_dates(g: Grounds, f: Findings) -> bool
    ensures { Tells signature_rules OutsideDates g f result }
{
    findings::is_within_dates(f.signer.dates, g.signing)
}

// f: the signer is not revoked at or before signing.
pub fn signer_stands(g: Grounds, f: Findings) -> bool
    ensures { Tells signature_rules SignerRevoked g f result }
{
    !findings::is_revoked_by(f.signer.revocation, g.signing)
}

// g: the original's digest is the given one.
pub fn digest_is_alike(g: Grounds, f: Findings) -> bool
    ensures { Tells signature_rules DigestDiffers g f result }
{
    g.alike
}

// The time of a stamp that is there and good.
fn good_stamp(g: Grounds, f: Findings) -> Option<Moment>
    ensures { Stamped g f result }
{
    if !g.stamped {
        return None;
    }
    match f.stamp.state {
        Stamping::Unchecked | Stamping::Bad => None,
        Stamping::Good(time) => Some(moments::of_finding(time)),
    }
}

// h: a stamp that is there is good.
pub fn stamp_is_good(g: Grounds, f: Findings) -> bool
    ensures { Tells signature_rules StampBad g f result }
{
    !g.stamped || good_stamp(g, f).is_some()
}

// h: signing is not later than a good stamp's time.
pub fn signed_by_stamp(g: Grounds, f: Findings) -> bool
    ensures { Tells signature_rules AfterStamp g f result }
{
    let Some(stamp) = good_stamp(g, f) else {
        return true;
    };
    moments::is_not_later(g.signing, stamp)
}

// h: the signer's certificate is in force at a good stamp's time.
pub fn signer_in_force(g: Grounds, f: Findings) -> bool
    ensures { Tells signature_rules SignerOutAtStamp g f result }
{
    let Some(stamp) = good_stamp(g, f) else {
        return true;
    };
    findings::is_in_force(f.signer, stamp)
}

// The maker's certificate is in force now.
pub fn maker_in_force(g: Grounds, f: Findings) -> bool
    ensures { Tells seal_rules MakerOutOfForce g f result }
{
    findings::is_in_force(f.maker, moments::of_finding(f.now))
}

// Now is within the seal's period.
pub fn now_in_period(g: Grounds, f: Findings) -> bool
    ensures { Tells seal_rules OutsidePeriod g f result }
{
    findings::is_between(g.start, g.end, moments::of_finding(f.now))
}
