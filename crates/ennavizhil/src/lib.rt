// The static library: what the crates answer, for C, with numbers and slices of numbers only.
#![tactic(auto)]

ghost use Rattle.std.specs.Prelude.{◌≡◌};
ghost use Rattle.records.specs.Record.{seal, signature};
ghost use Rattle.records.specs.Handing.{record_answer, fill_answer, fill_after, write_answer, write_after};
ghost use Rattle.runs.specs.Run.{at, run_answer, step_answer, step_after};
ghost use Rattle.verdicts.specs.Verdict.{seal_rules, signature_rules};
ghost use Rattle.packs.specs.Packed.{packed_number, packed_first, packed_second, packed_step, records_told, value_told};
ghost use Rattle.asked.specs.Asked.{kind_of, asked_field, asked_match, asked_value, asked_critical, asked_count};
ghost use Rattle.place_tables.specs.Table.{table_answer, TableAfter};
ghost use Rattle.ennavizhil.specs.Judged.{asked_verdict};

use records::Record;

// The number of what is not findings.
// Kept: C is handed it.
const NOT_FINDINGS: u64 = 253;

// A seal read: its length, or the first refusal.
#[unsafe(no_mangle)]
pub extern "C" fn ennavizhil_seal_check(record: &[u8]) -> u64
    ensures { result ≡ packed_first (record_answer seal «record».now) }
{
    packs::outcome(readers::check_seal(record))
}

// A signature record read: its length, or the first refusal.
#[unsafe(no_mangle)]
pub extern "C" fn ennavizhil_signature_check(record: &[u8]) -> u64
    ensures { result ≡ packed_first (record_answer signature «record».now) }
{
    packs::outcome(readers::check_signature(record))
}

// A run read: how many records it has, or the first refusal.
#[unsafe(no_mangle)]
pub extern "C" fn ennavizhil_run_check(run: &[u8]) -> u64
    ensures { result ≡ packed_first (run_answer signature run.now) }
{
    run_packs::run(run_walks::whole(run, Record::Signature))
}

// A run read: how many records it has, or how many stand before the refusal.
#[unsafe(no_mangle)]
pub extern "C" fn ennavizhil_run_records(run: &[u8]) -> u64
    ensures { result ≡ records_told (run_answer signature run.now) }
{
    run_packs::records(run_walks::whole(run, Record::Signature))
}

// One step of a run: where the record at the position ends, the end, or the first refusal in it.
#[unsafe(no_mangle)]
pub extern "C" fn ennavizhil_run_step(run: &[u8], position: usize, number: u64) -> u64
    ensures { result ≡ packed_step (step_answer signature run.now (at position number)) (step_after signature run.now (at position number)).position }
{
    run_packs::step(run_walks::step(run, Record::Signature, position, number))
}

// The sheet of a seal: the bytes written, or the seal's refusal, then 20.
#[unsafe(no_mangle)]
pub extern "C" fn ennavizhil_seal_sheet(record: &[u8], sheet: &mut [u8]) -> u64
    ensures value { result ≡ packed_first (fill_answer seal «record».now sheet.old) }
    ensures sheet_after { sheet.new ≡ fill_after seal «record».now sheet.old }
{
    packs::outcome(sheets::fill(record, Record::Seal, sheet))
}

// The sheet of a signature record: the bytes written, or the record's refusal, then 20.
#[unsafe(no_mangle)]
pub extern "C" fn ennavizhil_signature_sheet(record: &[u8], sheet: &mut [u8]) -> u64
    ensures value { result ≡ packed_first (fill_answer signature «record».now sheet.old) }
    ensures sheet_after { sheet.new ≡ fill_after signature «record».now sheet.old }
{
    packs::outcome(sheets::fill(record, Record::Signature, sheet))
}

// The seal of a sheet: the bytes written, or the sheet's refusal, then 17, then 20.
#[unsafe(no_mangle)]
pub extern "C" fn ennavizhil_seal_write(sheet: &[u8], record: &mut [u8]) -> u64
    ensures value { result ≡ packed_first (write_answer seal sheet.now «record».old) }
    ensures record_after { «record».new ≡ write_after seal sheet.now «record».old }
{
    packs::outcome(sheets::write(sheet, Record::Seal, record))
}

// The signature record of a sheet: the bytes written, or the sheet's refusal, then 17, then 20.
#[unsafe(no_mangle)]
pub extern "C" fn ennavizhil_signature_write(sheet: &[u8], record: &mut [u8]) -> u64
    ensures value { result ≡ packed_first (write_answer signature sheet.now «record».old) }
    ensures record_after { «record».new ≡ write_after signature sheet.now «record».old }
{
    packs::outcome(sheets::write(sheet, Record::Signature, record))
}

// Where a field begins, by its number and its index in a list.
#[unsafe(no_mangle)]
pub extern "C" fn ennavizhil_field_start(kind: u8, record: &[u8], field: u8, index: usize) -> u64
    ensures { result ≡ packed_first (asked_field kind field index «record».now) }
{
    part_packs::start(asked::part(kind, record, field, index))
}

// How long a field is.
#[unsafe(no_mangle)]
pub extern "C" fn ennavizhil_field_length(kind: u8, record: &[u8], field: u8, index: usize) -> u64
    ensures { result ≡ packed_second (asked_field kind field index «record».now) }
{
    part_packs::length(asked::part(kind, record, field, index))
}

// Whether an integer is there.
#[unsafe(no_mangle)]
pub extern "C" fn ennavizhil_value_check(kind: u8, record: &[u8], field: u8) -> u64
    ensures { result ≡ packed_number (asked_value kind field «record».now) }
{
    value_packs::integer(asked::integer(kind, record, field))
}

// An integer, 0 where there is none.
#[unsafe(no_mangle)]
pub extern "C" fn ennavizhil_value(kind: u8, record: &[u8], field: u8) -> i64
    ensures { result ≡ value_told (asked_value kind field «record».now) }
{
    value_packs::value(asked::integer(kind, record, field))
}

// Whether a custom item is critical, as 0 or 1.
#[unsafe(no_mangle)]
pub extern "C" fn ennavizhil_critical(kind: u8, record: &[u8], field: u8, index: usize) -> u64
    ensures { result ≡ packed_first (asked_critical (kind_of kind) field index «record».now) }
{
    value_packs::critical(asked::critical(kind, record, field, index))
}

// How many items a list has.
#[unsafe(no_mangle)]
pub extern "C" fn ennavizhil_count(kind: u8, record: &[u8], field: u8) -> u64
    ensures { result ≡ packed_first (asked_count (kind_of kind) field «record».now) }
{
    value_packs::items(asked::items(kind, record, field))
}

// Where the first entry of the certificate list begins that is the given bytes.
#[unsafe(no_mangle)]
pub extern "C" fn ennavizhil_matching_start(kind: u8, record: &[u8], given: &[u8]) -> u64
    ensures { result ≡ packed_first (asked_match kind given.now «record».now) }
{
    part_packs::start(asked::matching_entry(kind, record, given))
}

// How long it is.
#[unsafe(no_mangle)]
pub extern "C" fn ennavizhil_matching_length(kind: u8, record: &[u8], given: &[u8]) -> u64
    ensures { result ≡ packed_second (asked_match kind given.now «record».now) }
{
    part_packs::length(asked::matching_entry(kind, record, given))
}

// The table of places of a seal, in a destination: the length of the seal, or the refusal.
#[unsafe(no_mangle)]
pub extern "C" fn ennavizhil_seal_places(record: &[u8], index: usize, table: &mut [usize]) -> u64
    ensures value { result ≡ packed_first (table_answer seal «record».now table.old) }
    ensures table_after { TableAfter seal «record».now index table.old table.new }
{
    packs::outcome(place_tables::fill(record, Record::Seal, index, table))
}

// The table of places of a signature record, in a destination.
#[unsafe(no_mangle)]
pub extern "C" fn ennavizhil_signature_places(
    record: &[u8],
    index: usize,
    table: &mut [usize],
) -> u64
    ensures value { result ≡ packed_first (table_answer signature «record».now table.old) }
    ensures table_after { TableAfter signature «record».now index table.old table.new }
{
    packs::outcome(place_tables::fill(record, Record::Signature, index, table))
}

// The verdict on a seal, by 19 numbers that are the findings and the two digests.
#[tactic(auto, unfolding(crate::specs::Judged::asked_verdict, terms::specs::Answer::pick))]
#[unsafe(no_mangle)]
pub extern "C" fn ennavizhil_seal_verdict(
    record: &[u8],
    original: &[u8],
    signer: &[u8],
    findings: &[u64],
) -> u64
    ensures { result ≡ packed_first (asked_verdict seal_rules «record».now original.now signer.now findings.now) }
{
    if !finding_rows::are_findings(findings) {
        return NOT_FINDINGS;
    }
    packs::verdict(judges::seal(record, given_findings::findings(findings), original, signer))
}

// The verdict on a signature record.
#[tactic(auto, unfolding(crate::specs::Judged::asked_verdict, terms::specs::Answer::pick))]
#[unsafe(no_mangle)]
pub extern "C" fn ennavizhil_signature_verdict(
    record: &[u8],
    original: &[u8],
    signer: &[u8],
    findings: &[u64],
) -> u64
    ensures { result ≡ packed_first (asked_verdict signature_rules «record».now original.now signer.now findings.now) }
{
    if !finding_rows::are_findings(findings) {
        return NOT_FINDINGS;
    }
    packs::verdict(judges::signature(record, given_findings::findings(findings), original, signer))
}
