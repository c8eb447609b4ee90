// Moments: of a record's time and of a finding's, and which of two is not later. Nothing else compares times.
#![tactic(auto)]

ghost use Rattle.std.specs.Prelude.{◌≡◌};
ghost use Rattle.contents.specs.Time.{not_later, moment_of, moment_at};
ghost use Rattle.moments.specs.Moment.{moment_in};

// A moment, by the number that its fourteen digits make.
#[derive(Clone, Copy, PartialEq, Eq, PartialOrd, Ord, Debug)]
pub struct Moment {
    number: u64,
}

// The moment that a record's time says.
pub fn of_record(w: &[u8]) -> Moment
    ensures { moment_in result ≡ moment_of w.now }
{
    Moment {
        number: times::moment(w, 0, w.len()),
    }
}

// The moment that a finding's time says.
pub fn of_finding(n: u64) -> Moment
    ensures { moment_in result ≡ moment_at n }
{
    Moment { number: n }
}

// Whether a moment is not later than another.
#[tactic(auto, unfolding(contents::specs::Time::not_later))]
pub fn is_not_later(a: Moment, b: Moment) -> bool
    ensures { result ≡ not_later (moment_in a) (moment_in b) }
{
    a <= b
}
