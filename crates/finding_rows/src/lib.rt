// Which rows of numbers are findings.
#![tactic(auto)]

ghost use Rattle.std.specs.Prelude.{◌≡◌};
ghost use Rattle.finding_rows.specs.Row.{at, is_flag, are_flags, are_findings};

// How many numbers the findings are.
// Kept: the C interface gives them in a row, each at its index.
const NUMBERS_COUNT: usize = 19;

// A number of a row; past its end they are zeros.
pub fn number_at(xs: &[u64], k: usize) -> u64
    ensures { result ≡ at xs.now k }
{
    xs.get(k).copied().unwrap_or(0)
}

// Whether a number is 0 or 1.
fn is_flag(xs: &[u64], k: usize) -> bool
    ensures { result ≡ is_flag xs.now k }
{
    number_at(xs, k) < 2
}

// Whether three numbers are.
#[tactic(auto, unfolding(crate::specs::Row::are_flags))]
fn are_flags(xs: &[u64], a: usize, b: usize, c: usize) -> bool
    ensures { result ≡ are_flags xs.now a b c }
{
    is_flag(xs, a) && is_flag(xs, b) && is_flag(xs, c)
}

// Whether a row is findings: of 19 numbers, each flag 0 or 1, the stamp 0, 1 or 2.
#[tactic(auto, unfolding(crate::specs::Row::are_findings))]
pub fn are_findings(xs: &[u64]) -> bool
    ensures { result ≡ are_findings xs.now }
{
    xs.len() == NUMBERS_COUNT
        && are_flags(xs, 0, 1, 15)
        && are_flags(xs, 3, 4, 7)
        && are_flags(xs, 9, 10, 13)
        && number_at(xs, 17) < 3
}
