// Reads one signature record from standard input and writes its sheet, or one line: REFUSED, number, place.
#![tactic(auto)]

use records::Record;
use std::io;
use std::io::Write;
use std::process::ExitCode;

// Fills the sheet from a record and writes it. A sheet may have more bytes than its record: where it has more than there is room for, the
// line says how many.
fn print(rt: &impl Print, record: &[u8]) -> io::Result<()> {
    let mut sheet = [0u8; 65536];
    match sheets::fill(record, Record::Signature, &mut sheet) {
        Ok(m) => io::writer(rt).write_all(&sheet[..m]),
        Err(refusal) => println!(rt; "REFUSED {refusal}"),
    }
}

// Reads the input and prints what comes of it.
fn main(rt: HostRuntime) -> io::Result<ExitCode> {
    let mut input = [0u8; 65536];
    let Some(n) = streams::input(&rt, &mut rt.stdin(), &mut input)? else {
        return Ok(ExitCode::FAILURE);
    };
    print(&rt, &input[..n])?;
    Ok(ExitCode::SUCCESS)
}
