// Integers, critical and the number of a list's items as one number each.
#![tactic(auto)]

ghost use Rattle.std.specs.Prelude.{◌≡◌};
ghost use Rattle.records.specs.Handing.{told_number, told_is, told_items};
ghost use Rattle.packs.specs.Packed.{packed_number, packed_first, value_told};

use terms::Refusal;

// Whether an integer is there.
pub fn integer(x: Result<Option<i64>, Refusal>) -> u64
    ensures { result ≡ packed_number (told_number x) }
{
    packs::found(x.map(|found| found.map(|_| 0)))
}

// An integer, 0 where there is none.
pub fn value(x: Result<Option<i64>, Refusal>) -> i64
    ensures { result ≡ value_told (told_number x) }
{
    match x {
        Ok(Some(v)) => v,
        Ok(None) => 0,
        Err(_) => 0,
    }
}

// Whether a custom item is critical, as 0 or 1.
pub fn critical(x: Result<Option<bool>, Refusal>) -> u64
    ensures { result ≡ packed_first (told_is x) }
{
    packs::found(x.map(|found| found.map(u64::from)))
}

// How many items a list has.
pub fn items(x: Result<Option<usize>, Refusal>) -> u64
    ensures { result ≡ packed_first (told_items x) }
{
    packs::found(x.map(|found| found.map(|n| n as u64)))
}
