// Where a part of a record lies, as two numbers.
#![tactic(auto)]

ghost use Rattle.std.specs.Prelude.{◌≡◌};
ghost use Rattle.records.specs.Handing.{told_part};
ghost use Rattle.packs.specs.Packed.{packed_first, packed_second};

use records::Part;
use terms::Refusal;

// Where a part begins.
pub fn start(x: Result<Option<Part>, Refusal>) -> u64
    ensures { result ≡ packed_first (told_part x) }
{
    packs::found(x.map(|found| found.map(|p| p.start as u64)))
}

// How long a part is.
pub fn length(x: Result<Option<Part>, Refusal>) -> u64
    ensures { result ≡ packed_second (told_part x) }
{
    packs::found(x.map(|found| found.map(|p| p.length as u64)))
}
