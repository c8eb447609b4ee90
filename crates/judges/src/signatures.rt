// The signature verdict on an accepted record (000, 7.3): the steps in their order, and the notice.
ghost use Rattle.std.specs.Prelude.{◌≡◌, [], ◌∷◌};
ghost use Rattle.verdicts.specs.declared.Verdict.TheVariants.{SignerBad, OutsideDates, SignerRevoked, DigestDiffers, StampBad, AfterStamp, SignerOutAtStamp};
ghost use Rattle.verdicts.specs.Verdict.{signature_rules, maker_out, verdict_number};
ghost use Rattle.verdicts.proofs.Laws.Verdict.{takes_notice};
ghost use Rattle.judges.specs.Step.{Of, Comes, Finds, Judges, Weighs};

use crate::steps;
use grounds::Grounds;
use terms::{Reason, Refusal};
use verdicts::{Findings, Judgement, Verdict};

// The first step that fails, in the order of the standard (000, 7.3), or valid.
// Kept: document 01 names the form, a link by let .. else for each step.
fn verdict(g: Grounds, f: Findings) -> Verdict
    ensures { Finds signature_rules g f result }
{
    let true = steps::signature_is_good(g, f) else {
        return Verdict::SignatureBad;
    };
    let true = steps::signer_is_listed(g, f) else {
        return Verdict::SignerUnlisted;
    };
    let true = steps::seal_is_good(g, f) else {
        return Verdict::SealBad;
    };
    let true = steps::maker_is_good(g, f) else {
        return Verdict::MakerBad;
    };
    let true = steps::signed_in_period(g, f) else {
        return Verdict::OutsidePeriod;
    };
    let true = steps::seal_stands(g, f) else {
        return Verdict::SealWithdrawn;
    };
    verdict_by_signer(g, f)
}

// The verdict on a record that passes b to d: the steps e to h.
fn verdict_by_signer(g: Grounds, f: Findings) -> Verdict
    ensures { Comes signature_rules (SignerBad ∷ OutsideDates ∷ SignerRevoked ∷ DigestDiffers ∷ StampBad ∷ AfterStamp ∷ SignerOutAtStamp ∷ []) g f result }
{
    let true = steps::signer_is_good(g, f) else {
        return Verdict::SignerBad;
    };
    let true = steps::signed_in_dates(g, f) else {
        return Verdict::OutsideDates;
    };
    let true = steps::signer_stands(g, f) else {
        return Verdict::SignerRevoked;
    };
    let true = steps::digest_is_alike(g, f) else {
        return Verdict::DigestDiffers;
    };
    verdict_by_stamp(g, f)
}

// The verdict on a record that passes b to g: the step h.
fn verdict_by_stamp(g: Grounds, f: Findings) -> Verdict
    ensures { Comes signature_rules (StampBad ∷ AfterStamp ∷ SignerOutAtStamp ∷ []) g f result }
{
    let true = steps::stamp_is_good(g, f) else {
        return Verdict::StampBad;
    };
    let true = steps::signed_by_stamp(g, f) else {
        return Verdict::AfterStamp;
    };
    let true = steps::signer_in_force(g, f) else {
        return Verdict::SignerOutAtStamp;
    };
    Verdict::Valid
}

// Whether a notice goes with a verdict: with those of the numbers 0 and 26 to 34.
#[tactic(auto, unfolding(verdicts::proofs::Laws::Verdict::takes_notice))]
fn takes_notice(verdict: Verdict) -> bool
    ensures { result ≡ takes_notice (verdict_number verdict) }
{
    !matches!(
        verdict,
        Verdict::SignatureBad
            | Verdict::SignerUnlisted
            | Verdict::SealBad
            | Verdict::MakerBad
            | Verdict::MakerOutOfForce
    )
}

// Whether the maker's certificate is out of force both now and at signing.
#[tactic(auto, unfolding(verdicts::specs::Verdict::maker_out))]
fn is_maker_out(g: Grounds, f: Findings) -> bool
    ensures { Of g f (λ x. result ≡ maker_out x) }
{
    let now = moments::of_finding(f.now);
    !findings::is_in_force(f.maker, now) && !findings::is_in_force(f.maker, g.signing)
}

// The answer with a signature verdict, and the notice where it goes with it.
fn with_notice(verdict: Verdict, g: Grounds, f: Findings) -> Judgement
    requires { Finds signature_rules g f verdict }
    ensures { Judges signature_rules g f result }
{
    Judgement {
        verdict,
        notice: takes_notice(verdict) && is_maker_out(g, f),
    }
}

// The verdict on an accepted signature record.
pub fn judge(g: Grounds, f: Findings) -> Result<Judgement, Refusal>
    ensures { Weighs signature_rules g f result }
{
    if !real_findings::is_all_real(f) {
        return Err(Reason::UnrealTime.at(0));
    }
    Ok(with_notice(verdict(g, f), g, f))
}
