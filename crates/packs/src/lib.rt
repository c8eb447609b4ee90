// Answers as one number each: the paper's number in the lowest 8 bits, and what stands above it.
#![tactic(auto)]

ghost use Rattle.std.specs.Prelude.{◌≡◌};
ghost use Rattle.terms.specs.Numbers.{done, absent, reason_number};
ghost use Rattle.layouts.specs.Whole.{told_outcome};
ghost use Rattle.verdicts.specs.Verdict.{told_verdict};
ghost use Rattle.packs.specs.Packed.{packed, packed_first, packed_found};

use terms::Refusal;
use verdicts::Judgement;

// Beside the paper's numbers: done, and absent or no match.
// Kept: they are bits of the number that C is handed.
const DONE: u8 = 0;

const ABSENT: u8 = 254;

// What stands above a number has 56 bits.
const ABOVE: u64 = 72057594037927936;

// A number with what stands above it.
pub fn pack(number: u8, above: u64) -> u64
    ensures { result ≡ packed number above }
{
    (above % ABOVE) * 256 + u64::from(number)
}

// A refusal: its number and its place.
pub fn refused(refusal: Refusal) -> u64
    ensures { result ≡ packed (reason_number refusal.reason) refusal.place }
{
    pack(refusal.reason.number(), refusal.place as u64)
}

// What is done, with what stands above it.
pub fn done(above: u64) -> u64
    ensures { result ≡ packed done above }
{
    pack(DONE, above)
}

// What is absent, or no match.
pub fn absent() -> u64
    ensures { result ≡ packed absent 0 }
{
    pack(ABSENT, 0)
}

// What may be absent: with what stands above it where it is there.
pub fn found(x: Result<Option<u64>, Refusal>) -> u64
    ensures { result ≡ packed_found x }
{
    match x {
        Ok(Some(above)) => done(above),
        Ok(None) => absent(),
        Err(refusal) => refused(refusal),
    }
}

// How many bytes were read or written, or the refusal.
pub fn outcome(o: Result<usize, Refusal>) -> u64
    ensures { result ≡ packed_first (told_outcome o) }
{
    match o {
        Ok(n) => done(n as u64),
        Err(refusal) => refused(refusal),
    }
}

// A verdict: the notice above its number.
pub fn verdict(v: Result<Judgement, Refusal>) -> u64
    ensures { result ≡ packed_first (told_verdict v) }
{
    match v {
        Ok(j) => pack(j.verdict.number(), u64::from(j.notice)),
        Err(refusal) => refused(refusal),
    }
}
