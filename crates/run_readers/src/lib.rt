// The run reader: a struct over a lent run of signature records, a position and the number of records handed out, above functions on plain values.
#![tactic(auto)]

ghost use Rattle.std.specs.Prelude.{◌≡◌, length};
ghost use Rattle.records.specs.Record.{signature};
ghost use Rattle.records.specs.Part.{PartOf};
ghost use Rattle.runs.specs.Run.{at, step_answer, step_after, step_part, held, told_stepped, handed_record};
ghost use Rattle.fields.specs.Handed.{within};

use records::{Part, Record};
use runs::{Moved, Stopped};

// A run, where to read on, and how many records were handed out.
#[derive(Clone, Copy)]
pub struct RunReader<'a> {
    pub run: &'a [u8],
    pub position: usize,
    pub handed: u64,
}

// A run reader after a step, and what the step answered.
#[derive(Clone, Copy)]
pub struct After<'a> {
    pub run: &'a [u8],
    pub position: usize,
    pub handed: u64,
    pub answer: Result<Option<Part>, Stopped>,
}

// A step, on plain values.
fn step(run: &[u8], position: usize, handed: u64) -> Moved
    ensures { (told_stepped result.answer ≡ step_answer signature run.now (at position handed)) × (held result ≡ step_after signature run.now (at position handed)) }
{
    run_walks::step(run, Record::Signature, position, handed)
}

impl<'a> RunReader<'a> {
    // A run reader at the run's start.
    pub fn new(run: &'a [u8]) -> RunReader<'a>
        ensures { (result.run ≡ run.entry) × ((result.position ≡ 0) × (result.handed ≡ 0)) }
    {
        RunReader {
            run,
            position: 0,
            handed: 0,
        }
    }

    // The next record, the end or the refusal, and the reader after it: at the end and at a refusal as it was.
    pub fn next(self) -> After<'a>
        ensures { (result.run ≡ self.entry.run) × ((told_stepped result.answer ≡ step_answer signature self.entry.run.now (at self.entry.position self.entry.handed)) × (at result.position result.handed ≡ step_after signature self.entry.run.now (at self.entry.position self.entry.handed))) }
    {
        let moved = step(self.run, self.position, self.handed);
        After {
            run: self.run,
            position: moved.position,
            handed: moved.handed,
            answer: moved.answer,
        }
    }
}

impl<'a> After<'a> {
    // The part of the run that was handed out: at the end and at a refusal no bytes, at the run's start.
    pub fn part(self) -> &'a [u8]
        ensures { PartOf self.entry.run result (within (length self.entry.run.now) (handed_record self.entry.answer)) }
    {
        run_steps::cut(self.run, self.answer)
    }
}

// The record at a position, as a part of the run: what a run reader hands out there, for a caller with a plain slice.
pub fn record_at(run: &[u8], position: usize) -> &[u8]
    ensures { PartOf run.entry result (step_part signature run.now position) }
{
    let reader = RunReader {
        run,
        position,
        handed: 0,
    };
    reader.next().part()
}
