// Reads one signature record from standard input and prints one line: ACCEPTED and its length, or REFUSED, number, place.
#![tactic(auto)]

use std::io;
use std::process::ExitCode;

// Prints the line of a record.
fn print(rt: &impl Print, record: &[u8]) -> io::Result<()> {
    match readers::check_signature(record) {
        Ok(n) => println!(rt; "ACCEPTED {n}"),
        Err(refusal) => println!(rt; "REFUSED {refusal}"),
    }
}

// Reads the input and prints its line.
fn main(rt: HostRuntime) -> io::Result<ExitCode> {
    let mut input = [0u8; 65536];
    let Some(n) = streams::input(&rt, &mut rt.stdin(), &mut input)? else {
        return Ok(ExitCode::FAILURE);
    };
    print(&rt, &input[..n])?;
    Ok(ExitCode::SUCCESS)
}
