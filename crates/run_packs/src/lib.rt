// The answers over a run, as one number each.
#![tactic(auto)]

ghost use Rattle.std.specs.Prelude.{◌≡◌};
ghost use Rattle.runs.specs.Run.{told_stepped, told_counted};
ghost use Rattle.packs.specs.Packed.{packed_first, packed_step, records_told};

use runs::{Moved, Stopped};

// The end of a run.
// Kept: C is handed it.
const RUN_END: u8 = 255;

// How many records a run has.
pub fn run(x: Result<u64, Stopped>) -> u64
    ensures { result ≡ packed_first (told_counted x) }
{
    match x {
        Ok(n) => packs::done(n),
        Err(stopped) => packs::refused(stopped.refusal),
    }
}

// How many records of a run were read.
pub fn records(x: Result<u64, Stopped>) -> u64
    ensures { result ≡ records_told (told_counted x) }
{
    x.unwrap_or_else(|stopped| stopped.before)
}

// One step of a run: where it stands after it.
pub fn step(m: Moved) -> u64
    ensures { result ≡ packed_step (told_stepped m.answer) m.position }
{
    match m.answer {
        Ok(Some(_)) => packs::done(m.position as u64),
        Ok(None) => packs::pack(RUN_END, m.position as u64),
        Err(stopped) => packs::refused(stopped.refusal),
    }
}
