// There and back: a record through its sheet, and a sheet through its record, give the same bytes.
#![tactic(auto)]

ghost use Rattle.std.specs.Prelude.{◌≡◌, length};
ghost use Rattle.terms.specs.Answer.{answered};
ghost use Rattle.layouts.specs.Whole.{stored, told_outcome};
ghost use Rattle.records.specs.Handing.{layout_of, fill_after, write_after};
ghost use Rattle.round_trips.specs.Trip.{record_trip, sheet_trip};

use records::Record;
use terms::Refusal;

// Fills a record's sheet and writes a record from it: the record itself, or the first refusal.
pub fn record_and_back(
    record: &[u8],
    x: Record,
    sheet: &mut [u8],
    back: &mut [u8],
) -> Result<usize, Refusal>
    ensures result_value { told_outcome result ≡ answered (λ y. length y) (record_trip (layout_of x) «record».now (length sheet.old) (length back.old)) }
    ensures sheet_after { sheet.new ≡ fill_after (layout_of x) «record».now sheet.old }
    ensures back_after { back.new ≡ stored (record_trip (layout_of x) «record».now (length sheet.old) (length back.old)) back.old }
{
    let n = sheets::fill(record, x, sheet)?;
    sheets::write(&sheet[..n], x, back)
}

// Writes a sheet's record and fills a sheet from it: the sheet itself, or the first refusal.
pub fn sheet_and_back(
    sheet: &[u8],
    x: Record,
    record: &mut [u8],
    back: &mut [u8],
) -> Result<usize, Refusal>
    ensures result_value { told_outcome result ≡ answered (λ y. length y) (sheet_trip (layout_of x) sheet.now (length «record».old) (length back.old)) }
    ensures record_after { «record».new ≡ write_after (layout_of x) sheet.now «record».old }
    ensures back_after { back.new ≡ stored (sheet_trip (layout_of x) sheet.now (length «record».old) (length back.old)) back.old }
{
    let n = sheets::write(sheet, x, record)?;
    sheets::fill(&record[..n], x, back)
}
