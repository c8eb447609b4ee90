// Reads one signature record from standard input, fills its sheet and writes the record again from that; or prints one line: REFUSED, number,
// place. The tests run it: what it writes is what it read.
#![tactic(auto)]

use records::Record;
use std::io;
use std::io::Write;
use std::process::ExitCode;

// Goes there and back, and writes what came back.
fn print(rt: &impl Print, record: &[u8]) -> io::Result<()> {
    let mut sheet = [0u8; 65536];
    let mut back = [0u8; 65536];
    match round_trips::record_and_back(record, Record::Signature, &mut sheet, &mut back) {
        Ok(m) => io::writer(rt).write_all(&back[..m]),
        Err(refusal) => println!(rt; "REFUSED {refusal}"),
    }
}

// Reads the input and prints what comes of it.
fn main(rt: HostRuntime) -> io::Result<ExitCode> {
    let mut input = [0u8; 65536];
    let Some(n) = streams::input(&rt, &mut rt.stdin(), &mut input)? else {
        return Ok(ExitCode::FAILURE);
    };
    print(&rt, &input[..n])?;
    Ok(ExitCode::SUCCESS)
}
