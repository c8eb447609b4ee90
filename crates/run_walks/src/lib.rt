// A run by positions: one step of it, and all of it.
#![tactic(auto)]

ghost use Rattle.std.specs.Prelude.{◌≡◌, length};
ghost use Rattle.terms.specs.Numbers.{largest_record};
ghost use Rattle.layouts.specs.Scan.{record_scan};
ghost use Rattle.records.specs.Handing.{layout_of};
ghost use Rattle.runs.specs.Run.{at, step_answer, step_after, run_answer, held, told_stepped, told_counted};

use records::{Part, Record};
use runs::{Moved, Stopped};
use terms::{LARGEST_RECORD, Refusal};

// The record at a position, whatever follows it: where it ends, or the first refusal in it.
fn here(run: &[u8], x: Record, position: usize) -> Result<usize, Refusal>
    ensures { result ≡ record_scan largest_record (layout_of x) run.now position (length run.now) }
{
    let row = structures::row_of(x);
    walks::record(
        run,
        row,
        LARGEST_RECORD,
        position,
        run.len(),
        &mut [0usize; 0],
    )
}

// One step from a position, with a number of records handed out: the record there, the end, or the refusal; and both after it.
pub fn step(run: &[u8], x: Record, position: usize, handed: u64) -> Moved
    ensures answer_value { told_stepped result.answer ≡ step_answer (layout_of x) run.now (at position handed) }
    ensures result_value { held result ≡ step_after (layout_of x) run.now (at position handed) }
{
    if run.len() <= position {
        return Moved {
            position,
            handed,
            answer: Ok(None),
        };
    }
    match here(run, x, position) {
        Ok(end) => Moved {
            position: end,
            handed: run_steps::one_more(handed),
            answer: Ok(Some(Part {
                start: position,
                length: end - position,
            })),
        },
        Err(refusal) => Moved {
            position,
            handed,
            answer: Err(Stopped {
                refusal,
                before: handed,
            }),
        },
    }
}

// A whole run: how many records it has, or the refusal and the records before it.
pub fn whole(run: &[u8], x: Record) -> Result<u64, Stopped>
    ensures { told_counted result ≡ run_answer (layout_of x) run.now }
{
    let mut position = 0;
    let mut before = 0;
    // Kept: a record's end says where the next one starts, so no range counts the turns.
    while position < run.len() {
        // Kept: what `?` hands on after a `map_err` with the records before it was not proved.
        match here(run, x, position) {
            Ok(end) => position = end,
            Err(refusal) => return Err(Stopped { refusal, before }),
        }
        before += 1;
    }
    Ok(before)
}
