// A record's table of places in a destination of numbers: filled where the record is accepted, kept where it is refused.
#![tactic(auto)]

ghost use Rattle.std.specs.Prelude.{◌≡◌};
ghost use Rattle.layouts.specs.Whole.{told_outcome};
ghost use Rattle.records.specs.Handing.{layout_of};
ghost use Rattle.place_tables.specs.Table.{put_table, table_answer, TableAfter};

use places::TABLE_SIZE;
use records::Record;
use terms::{LARGEST_RECORD, Reason, Refusal};

// Puts a table at the start of a destination that has room for it.
#[tactic(auto, unfolding(crate::specs::Table::put_table, terms::specs::Answer::pick))]
fn put(table: &[usize], dst: &mut [usize])
    ensures { dst.new ≡ put_table table.now dst.old }
{
    if table.len() <= dst.len() {
        dst[..table.len()].copy_from_slice(table);
    }
}

// Reads a record and fills its table of places, with each list's item of an index: the record's length, or the refusal; 20 where the destination is too short.
pub fn fill(s: &[u8], x: Record, index: usize, dst: &mut [usize]) -> Result<usize, Refusal>
    ensures result_value { told_outcome result ≡ table_answer (layout_of x) s.now dst.old }
    ensures table_after { TableAfter (layout_of x) s.now index dst.old dst.new }
{
    let reading = readers::read(s, structures::row_of(x), LARGEST_RECORD, index);
    let size = reading.outcome?;
    if dst.len() < TABLE_SIZE {
        return Err(Reason::NoRoom.at(TABLE_SIZE));
    }
    put(&reading.places, dst);
    Ok(size)
}
