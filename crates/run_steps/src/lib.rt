// A step of a run on plain values: the number after a record, and the part that an answer names.
#![tactic(auto)]

ghost use Rattle.std.specs.Prelude.{◌≡◌, length};
ghost use Rattle.records.specs.Part.{PartOf};
ghost use Rattle.runs.specs.Run.{one_more, handed_record};
ghost use Rattle.cuts.specs.Handed.{within};

use records::Part;
use runs::Stopped;

// One record more; a number at its top stays.
#[tactic(auto, unfolding(runs::specs::Run::one_more, terms::specs::Answer::pick))]
pub fn one_more(number: u64) -> u64
    ensures { result ≡ one_more number }
{
    number.saturating_add(1)
}

// The part of a run that an answer names: where it names none, or one that does not lie in the run, no bytes, at the run's start.
pub fn cut(run: &[u8], answer: Result<Option<Part>, Stopped>) -> &[u8]
    ensures { PartOf run.entry result (within (length run.now) (handed_record answer)) }
{
    cuts::cut(run, answer.map_err(|stopped| stopped.refusal))
}
