// The seal verdict on an accepted seal (000, 6.3): the steps in their order, and no notice.
ghost use Rattle.verdicts.specs.Verdict.{seal_rules};
ghost use Rattle.judges.specs.Step.{Finds, Weighs};

use crate::steps;
use grounds::Grounds;
use terms::{Reason, Refusal};
use verdicts::{Findings, Judgement, Verdict};

// The first step that fails (000, 6.3), or valid.
// Kept: document 01 names the form, a link by let .. else for each step.
fn verdict(g: Grounds, f: Findings) -> Verdict
    ensures { Finds seal_rules g f result }
{
    let true = steps::seal_is_good(g, f) else {
        return Verdict::SealBad;
    };
    let true = steps::maker_is_good(g, f) else {
        return Verdict::MakerBad;
    };
    let true = steps::maker_in_force(g, f) else {
        return Verdict::MakerOutOfForce;
    };
    let true = steps::now_in_period(g, f) else {
        return Verdict::OutsidePeriod;
    };
    Verdict::Valid
}

// The verdict on an accepted seal, which has no notice.
pub fn judge(g: Grounds, f: Findings) -> Result<Judgement, Refusal>
    ensures { Weighs seal_rules g f result }
{
    if !real_findings::is_all_real(f) {
        return Err(Reason::UnrealTime.at(0));
    }
    Ok(Judgement {
        verdict: verdict(g, f),
        notice: false,
    })
}
