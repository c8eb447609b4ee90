// Answers cases from standard input, each the four bytes of its size and its bytes, with a line for each; second/README.md has their form.
#![tactic(auto)]

ghost use Rattle.std.specs.Prelude.{◌<◌};

use records::{Part, Record};
use runs::Stopped;
use std::io;
use std::io::{Read, Write};
use terms::{Field, Refusal};
use verdicts::{CertificateFacts, Dates, Findings, Judgement, SealFacts, StampFacts, Stamping};

// The bytes of the largest case: no list in one has so many items.
const LARGEST: usize = 70000;

// More cases than are stored.
const MOST_CASES: usize = 100000;

// The codes of fields that a seal has, and that a signature record has.
const SEAL_CODES: u8 = 24;

const SIGNATURE_CODES: u8 = 36;

// What a destination's sum is counted by.
const MODULUS: u64 = 4294967291;

// The parts of a case.

// The bytes of a case that are not read yet.
#[derive(Drop)]
struct Case<'a>(&'a [u8]);

impl<'a> Case<'a> {
    // The next bytes, so many or as many as there are.
    fn take(&mut self, n: usize) -> &'a [u8] {
        let (taken, rest) = self.0.split_at(n.min(self.0.len()));
        self.0 = rest;
        taken
    }

    // The number that so many next bytes make.
    fn number(&mut self, n: usize) -> u64 {
        self.take(n)
            .iter()
            .fold(0, |value, b| (value << 8) | u64::from(*b))
    }

    // The next byte, or 0.
    fn byte(&mut self) -> u8 {
        self.take(1).first().copied().unwrap_or(0)
    }

    // Whether the next byte is 1.
    fn is_one(&mut self) -> bool {
        self.byte() == 1
    }

    // The bytes whose length stands before them.
    fn bytes(&mut self) -> &'a [u8] {
        let n = self.number(4) as usize;
        self.take(n)
    }

    // A revocation: whether there is one, and its time.
    fn revocation(&mut self) -> Option<u64> {
        let is_there = self.is_one();
        let time = self.number(8);
        is_there.then_some(time)
    }

    // What was found of a certificate.
    fn certificate(&mut self) -> CertificateFacts {
        CertificateFacts {
            chain: self.is_one(),
            usage: self.is_one(),
            dates: Dates {
                first: self.number(8),
                last: self.number(8),
            },
            revocation: self.revocation(),
        }
    }

    // What was found of the stamp.
    fn stamp(&mut self) -> Stamping {
        let state = self.byte();
        let time = self.number(8);
        match state {
            0 => Stamping::Unchecked,
            1 => Stamping::Bad,
            _ => Stamping::Good(time),
        }
    }

    // The findings.
    fn findings(&mut self) -> Findings {
        Findings {
            signature: self.is_one(),
            sealing: self.is_one(),
            now: self.number(8),
            maker: self.certificate(),
            signer: self.certificate(),
            seal: SealFacts {
                withdrawn: self.revocation(),
            },
            stamp: StampFacts {
                state: self.stamp(),
            },
        }
    }
}

// Lines.

// What a line says of an answer that is there.
trait Said {
    // Prints it.
    fn print(self, out: &mut impl Write) -> io::Result<()>;
}

// Where a part lies.
impl Said for Part {
    fn print(self, out: &mut impl Write) -> io::Result<()> {
        write!(out, "PART {} {}", self.start, self.length)
    }
}

// An integer, by the eight bytes of its section, so that the cases try those too.
impl Said for i64 {
    fn print(self, out: &mut impl Write) -> io::Result<()> {
        write!(out, "VALUE {}", i64::from_be_bytes(numerals::eight(self)))
    }
}

// Whether an item is critical, as 0 or 1.
impl Said for bool {
    fn print(self, out: &mut impl Write) -> io::Result<()> {
        write!(out, "VALUE {}", u8::from(self))
    }
}

// How many items there are.
impl Said for usize {
    fn print(self, out: &mut impl Write) -> io::Result<()> {
        write!(out, "VALUE {self}")
    }
}

// An answer, or that there is none, or a refusal; whether there is one.
fn print_answer<T: Said>(
    out: &mut impl Write,
    answer: Result<Option<T>, Refusal>,
) -> io::Result<bool> {
    match answer {
        Ok(Some(said)) => {
            said.print(out)?;
            Ok(true)
        }
        Ok(None) => {
            write!(out, "ABSENT")?;
            Ok(false)
        }
        Err(refusal) => {
            write!(out, "REFUSED {refusal}")?;
            Ok(false)
        }
    }
}

// Why a run stops, and how many records stand before that.
fn print_stopped(out: &mut impl Write, stopped: Stopped) -> io::Result<()> {
    write!(out, "REFUSED {} AFTER {}", stopped.refusal, stopped.before)
}

// Questions.

// A record that is asked about, and its kind.
#[derive(Clone, Copy)]
struct Question<'a> {
    record: &'a [u8],
    kind: Record,
}

impl Question<'_> {
    // The record read.
    fn answer_check(self, out: &mut impl Write) -> io::Result<()> {
        let outcome = readers::check(
            self.record,
            structures::row_of(self.kind),
            terms::LARGEST_RECORD,
        );
        match outcome {
            Ok(n) => write!(out, "ACCEPTED {n}"),
            Err(refusal) => write!(out, "REFUSED {refusal}"),
        }
    }

    // One field, by its code; whether there is one.
    fn answer_field(self, out: &mut impl Write, code: u8, index: usize) -> io::Result<bool> {
        let Question { record, kind } = self;
        match code {
            3 => print_answer(out, values::seal_type(record, kind)),
            5 => print_answer(out, values::list_kind(record, kind)),
            6 => print_answer(out, lists::listed_count(record, kind)),
            15 => print_answer(out, values::width(record, kind)),
            16 => print_answer(out, values::height(record, kind)),
            17 => print_answer(out, lists::seal_custom_count(record, kind)),
            19 => print_answer(out, lists::seal_custom_critical(record, kind, index)),
            28 => print_answer(out, lists::signed_custom_count(record)),
            30 => print_answer(out, lists::signed_custom_critical(record, index)),
            _ => match field_of(code) {
                Some(field) => print_answer(out, fields::find(record, kind, field, index)),
                None => Ok(false),
            },
        }
    }

    // A field by each index, from 0 to the first that is not there.
    fn answer_items(self, out: &mut impl Write, code: u8) -> io::Result<()> {
        for index in 0..LARGEST {
            if !self.answer_field(out, code, index)? {
                break;
            }
            write!(out, ",")?;
        }
        Ok(())
    }

    // All fields up to a code.
    fn answer_fields(self, out: &mut impl Write, last: u8) -> io::Result<()> {
        for code in 1..=last {
            if code > 1 {
                write!(out, ",")?;
            }
            if is_indexed(code) {
                self.answer_items(out, code)?;
            } else {
                self.answer_field(out, code, 0)?;
            }
        }
        Ok(())
    }

    // The verdict on the record.
    fn answer_verdict(
        self,
        out: &mut impl Write,
        findings: Findings,
        original: &[u8],
        signer: &[u8],
    ) -> io::Result<()> {
        let judged = match self.kind {
            Record::Seal => judges::seal(self.record, findings, original, signer),
            Record::Signature => judges::signature(self.record, findings, original, signer),
        };
        match judged {
            Ok(Judgement { verdict, notice }) => {
                write!(out, "JUDGED {} {}", verdict.number(), u8::from(notice))
            }
            Err(refusal) => write!(out, "REFUSED {refusal}"),
        }
    }
}

// The field whose part a code asks for.
fn field_of(code: u8) -> Option<Field> {
    let field = match code {
        1 => Field::Vendor,
        2 => Field::SealId,
        4 => Field::SealName,
        7 => Field::ListedCertificate,
        8 => Field::ListedType,
        9 => Field::ListedDigest,
        10 => Field::Created,
        11 => Field::Start,
        12 => Field::End,
        13 => Field::PictureType,
        14 => Field::PictureData,
        18 => Field::SealCustomId,
        20 => Field::SealCustomValue,
        21 => Field::MakerCertificate,
        22 => Field::SealAlgorithm,
        23 => Field::SealSignedValue,
        24 => Field::SealInformation,
        25 => Field::SigningTime,
        26 => Field::OriginalDigest,
        27 => Field::PropertyText,
        29 => Field::SignedCustomId,
        31 => Field::SignedCustomValue,
        32 => Field::SignerCertificate,
        33 => Field::SignatureAlgorithm,
        34 => Field::SignatureValue,
        35 => Field::Stamp,
        36 => Field::SignedPart,
        _ => return None,
    };
    Some(field)
}

// Whether a code is of a field that is counted by an index.
fn is_indexed(code: u8) -> bool {
    matches!(code, 7..=9 | 18..=20 | 29..=31)
}

// A whole run.
fn answer_run(out: &mut impl Write, run: &[u8]) -> io::Result<()> {
    match run_walks::whole(run, Record::Signature) {
        Ok(n) => write!(out, "RECORDS {n}"),
        Err(stopped) => print_stopped(out, stopped),
    }
}

// One step of a run.
fn answer_step(out: &mut impl Write, run: &[u8], position: usize, handed: u64) -> io::Result<()> {
    let moved = run_walks::step(run, Record::Signature, position, handed);
    match moved.answer {
        Ok(Some(part)) => write!(out, "RECORD {} {}", part.start, part.length)?,
        Ok(None) => write!(out, "END")?,
        Err(stopped) => print_stopped(out, stopped)?,
    }
    write!(out, " POSITION {} NUMBER {}", moved.position, moved.handed)
}

// A destination's sum.
fn sum(s: &[u8]) -> u64 {
    s.iter().fold(0, |total, b| {
        ((total % MODULUS) * 257 + u64::from(*b) + 1) % MODULUS
    })
}

// A destination of a size written: how many bytes, or why none were, and the destination's sum.
fn answer_written<W: Write, F: FnOnce(&mut [u8]) -> Result<usize, Refusal>>(
    out: &mut W,
    size: usize,
    write: F,
) -> io::Result<()>
    requires { F.IsAlwaysCallable write }
{
    let mut space = [0xA5u8; LARGEST];
    if size > space.len() {
        return Ok(());
    }
    let destination = &mut space[..size];
    match write(destination) {
        Ok(n) => write!(out, "WROTE {n}")?,
        Err(refusal) => write!(out, "REFUSED {refusal}")?,
    }
    write!(out, " SUM {}", sum(&space[..size]))
}

// A question about a seal by an odd number, and about a signature record by an even one.
fn kind_of(operation: u8) -> Record {
    if operation % 2 == 1 {
        return Record::Seal;
    }
    Record::Signature
}

// The answer to a case, by its operation.
fn answer(out: &mut impl Write, case: &[u8]) -> io::Result<()> {
    let mut case = Case(case);
    let operation = case.byte();
    let kind = kind_of(operation);
    match operation {
        1 | 2 => {
            let record = case.bytes();
            Question { record, kind }.answer_check(out)?;
        }
        3 => answer_run(out, case.bytes())?,
        4 => {
            let position = case.number(8) as usize;
            let handed = case.number(8);
            answer_step(out, case.bytes(), position, handed)?;
        }
        5 | 6 => {
            let size = case.number(4) as usize;
            let record = case.bytes();
            answer_written(out, size, |sheet| sheets::fill(record, kind, sheet))?;
        }
        7 | 8 => {
            let size = case.number(4) as usize;
            let sheet = case.bytes();
            answer_written(out, size, |record| sheets::write(sheet, kind, record))?;
        }
        9 | 10 => {
            let code = case.byte();
            let index = case.number(8) as usize;
            let record = case.bytes();
            Question { record, kind }.answer_field(out, code, index)?;
        }
        11 | 12 => {
            let record = case.bytes();
            let last = match kind {
                Record::Seal => SEAL_CODES,
                Record::Signature => SIGNATURE_CODES,
            };
            Question { record, kind }.answer_fields(out, last)?;
        }
        13 | 14 => {
            let given = case.bytes();
            print_answer(out, matching::find(case.bytes(), kind, given))?;
        }
        15 | 16 => {
            let findings = case.findings();
            let original = case.bytes();
            let signer = case.bytes();
            let record = case.bytes();
            Question { record, kind }.answer_verdict(out, findings, original, signer)?;
        }
        _ => write!(out, "UNKNOWN")?,
    }
    writeln!(out)
}

// Reads until a buffer is full or the input ends; whether it is full.
fn read_full(input: &mut impl Read, buf: &mut [u8]) -> io::Result<bool> {
    Ok(streams::fill(input, buf)? == buf.len())
}

// Reads the next case and answers it; whether there was one, with all of its bytes.
fn next(input: &mut impl Read, out: &mut impl Write, space: &mut [u8]) -> io::Result<bool> {
    let mut size = [0u8; 4];
    if !read_full(input, &mut size)? {
        return Ok(false);
    }
    let n = u32::from_be_bytes(size) as usize;
    if n > space.len() {
        return Ok(false);
    }
    let case = &mut space[..n];
    if !read_full(input, case)? {
        return Ok(false);
    }
    answer(out, case)?;
    Ok(true)
}

// Answers one case after another until the input ends. A read or a write that fails ends it with that error.
fn main(rt: HostRuntime) -> io::Result<()> {
    let mut space = [0u8; LARGEST];
    let mut input = rt.stdin();
    let mut out = io::writer(&rt);
    for _ in 0..MOST_CASES {
        if !next(&mut input, &mut out, &mut space)? {
            break;
        }
    }
    Ok(())
}
