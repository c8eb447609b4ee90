// A sheet filled from a record, and a record written from a sheet, into a lent destination.
#![tactic(auto)]

ghost use Rattle.std.specs.Prelude.{◌≡◌, ◌<◌, length};
ghost use Rattle.layouts.specs.Layout.{node};
ghost use Rattle.layouts.specs.Whole.{sequence, told_outcome};
ghost use Rattle.records.specs.Handing.{layout_of as recordLayout, fill_answer, fill_after, write_answer, write_after};
ghost use Rattle.structures.specs.Structure.{layout_of};
ghost use Rattle.sides.specs.Move.{move as move_item};
ghost use Rattle.stores.specs.Store.{cap};
ghost use Rattle.sheets.specs.Send.{sent, ends};

use records::Record;
use sides::Side;
use sources::Source;
use structures::Structure;
use terms::{LARGEST_RECORD, Reason, Refusal};

// More bytes than the sheet of any record has.
const ANY_SIZE: usize = 4294967295;

// The item that a record is.
fn item_of(x: Record) -> Structure
    ensures { layout_of result ≡ node sequence (recordLayout x) }
{
    match x {
        Record::Seal => Structure::Seal,
        Record::Signature => Structure::Signature,
    }
}

// An item of a source in the destination's form: it is measured first, and refused if it has more than `most` bytes, then if there is no room for it.
fn send(
    source: Source<'_>,
    to: Side,
    x: Structure,
    most: usize,
    dst: &mut [u8],
) -> Result<usize, Refusal>
    requires { most < cap }
    ensures { (result, dst.new) ≡ ends (sent most (move_item source.entry.side to (layout_of x) source.entry.bytes.now 0 (length source.entry.bytes.now)).1 (length dst.old)) dst.old }
{
    let m = moves::item(source, to, x, 0, source.bytes.len(), most, dst);
    let size = m.to;
    if most < size {
        return Err(Reason::TooLarge.at(0));
    }
    if dst.len() < size {
        return Err(Reason::NoRoom.at(size));
    }
    Ok(size)
}

// The sheet of a record: the bytes written, or the record's refusal, then 20.
pub fn fill(record: &[u8], x: Record, sheet: &mut [u8]) -> Result<usize, Refusal>
    ensures result_value { told_outcome result ≡ fill_answer (recordLayout x) «record».now sheet.old }
    ensures sheet_after { sheet.new ≡ fill_after (recordLayout x) «record».now sheet.old }
{
    readers::check(record, structures::row_of(x), LARGEST_RECORD)?;
    let source = Source {
        bytes: record,
        side: Side::Record,
    };
    send(source, Side::Sheet, item_of(x), ANY_SIZE, sheet)
}

// The record of a sheet: the bytes written, or the sheet's refusal, then 17, then 20.
pub fn write(sheet: &[u8], x: Record, record: &mut [u8]) -> Result<usize, Refusal>
    ensures result_value { told_outcome result ≡ write_answer (recordLayout x) sheet.now «record».old }
    ensures record_after { «record».new ≡ write_after (recordLayout x) sheet.now «record».old }
{
    sheet_walks::sheet(sheet, structures::row_of(x))?;
    let source = Source {
        bytes: sheet,
        side: Side::Sheet,
    };
    send(source, Side::Record, item_of(x), LARGEST_RECORD, record)
}
