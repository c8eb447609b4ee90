// The verdicts on a seal and on a signature record: the first step that fails, and the notice.
#![tactic(auto)]

ghost use Rattle.std.specs.Prelude.{◌≡◌};
ghost use Rattle.verdicts.specs.Verdict.{verdict, signature_rules, seal_rules};

use records::Record;
use terms::Refusal;
use verdicts::{Findings, Judgement};

mod seals;
mod signatures;
mod steps;

// The signature verdict, with the given digests of the original and of the signer.
pub fn signature(
    s: &[u8],
    f: Findings,
    original: &[u8],
    signer: &[u8],
) -> Result<Judgement, Refusal>
    ensures { result ≡ verdict signature_rules s.now f original.now signer.now }
{
    let grounds = grounds::read(s, Record::Signature, original, signer)?;
    signatures::judge(grounds, f)
}

// The seal verdict, with the same findings.
pub fn seal(s: &[u8], f: Findings, original: &[u8], signer: &[u8]) -> Result<Judgement, Refusal>
    ensures { result ≡ verdict seal_rules s.now f original.now signer.now }
{
    let grounds = grounds::read(s, Record::Seal, original, signer)?;
    seals::judge(grounds, f)
}
