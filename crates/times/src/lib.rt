// Times: the Gregorian rule, a record's time by its bytes, a finding's time by its number.
#![tactic(auto)]

ghost use Rattle.std.specs.Prelude.{◌≡◌, ◌+◌, ◌*◌, ◌^◌, ◌≤◌, ◌<◌, drop, eqb};
ghost use Rattle.std.proofs.Math.Seq.{slice};
ghost use Rattle.contents.specs.Time.{leap, month_length, year_digits, time_from, time_rule, moment as instant, moment_of, written, is_real};
ghost use Rattle.contents.specs.Scan.{checked_at};
ghost use Rattle.times.specs.Time.{first_digit, inside, AtMost, part_at, told, there, closing, date_in, clock_in};

use terms::{Reason, Refusal};

// The last month of a year, the last hour of a day, the last minute of an hour and the last second of a minute.
const LAST_MONTH: u64 = 12;

const LAST_HOUR: u64 = 23;

const LAST_MINUTE: u64 = 59;

const LAST_SECOND: u64 = 59;

// Where the parts of a time start, its Z last, and how many bytes it has.
const YEAR: usize = 0;

const MONTH: usize = 4;

const DAY: usize = 6;

const HOUR: usize = 8;

const MINUTE: usize = 10;

const SECOND: usize = 12;

const ZULU: usize = 14;

const TIME_BYTES: usize = 15;

// How many days each month has, February of no leap year.
const MONTHS: [u64; 12] = [31, 28, 31, 30, 31, 30, 31, 31, 30, 31, 30, 31];

// A year is a leap year if 4 divides it, and, where 100 divides it, 400 too.
#[tactic(auto, unfolding(contents::specs::Time::leap))]
fn is_leap(y: u64) -> bool
    ensures { result ≡ leap y }
{
    y % 4 == 0 && (y % 100 != 0 || y % 400 == 0)
}

// How many days a month has: February of a leap year one more.
#[tactic(auto, unfolding(contents::specs::Time::month_length, terms::specs::Answer::pick))]
fn month_length(year: u64, month: u64) -> u64
    requires { (1 ≤ month) × (month ≤ 12) }
    ensures { result ≡ month_length year month }
{
    if month == 2 && is_leap(year) {
        return 29;
    }
    MONTHS[month as usize - 1]
}

// The digit at a position.
#[tactic(auto, unfolding(crate::specs::Time::first_digit, contents::specs::Time::is_digit, terms::specs::Answer::pick))]
fn digit_at(w: &[u8], i: usize) -> Option<u64>
    ensures { (result ≡ first_digit (drop i w.now)) × AtMost 9 result }
{
    match *w.get(i)? {
        d @ b'0'..=b'9' => Some(u64::from(d) - 0x30),
        _ => None,
    }
}

// A number from a least to a most number.
#[tactic(auto, unfolding(crate::specs::Time::inside))]
fn is_within(low: u64, high: u64, n: u64) -> bool
    ensures { result ≡ inside low high n }
{
    low <= n && n <= high
}

// One part of a time: the number of the `k` digits at `i`, where it lies from `low` to `high`.
fn part_at(w: &[u8], i: usize, k: usize, low: u64, high: u64) -> Option<u64>
    requires { (i ≤ 12) × (k ≤ 4) × (low < 10 ^ k) }
    ensures { (result ≡ part_at k low high i w.now) × AtMost high result }
{
    let mut n: u64 = 0;
    for j in 0..k {
        n = n * 10 + digit_at(w, i + j)?;
    }
    if is_within(low, high, n) {
        Some(n)
    } else {
        None
    }
}

// Three parts as one number, the last two with two digits each.
fn joined(a: u64, b: u64, c: u64) -> u64
    requires { (a ≤ 9999) × (b ≤ 99) × (c ≤ 99) }
    ensures { (result ≡ (a * 100 + b) * 100 + c) × (result ≤ 99999999) }
{
    (a * 100 + b) * 100 + c
}

// A time's date: year, month and day as one number.
#[tactic(auto, unfolding(crate::specs::Time::date_in, crate::specs::Time::after))]
fn date_in(w: &[u8]) -> Option<u64>
    ensures { (result ≡ date_in w.now) × AtMost 99999999 result }
{
    let year = part_at(w, YEAR, 4, 0, 9999)?;
    let month = part_at(w, MONTH, 2, 1, LAST_MONTH)?;
    let day = part_at(w, DAY, 2, 1, month_length(year, month))?;
    Some(joined(year, month, day))
}

// The closing Z.
#[tactic(auto, unfolding(crate::specs::Time::closing))]
fn closes(w: &[u8]) -> bool
    ensures { result ≡ closing (drop 14 w.now) }
{
    w.get(ZULU) == Some(&b'Z')
}

// What follows the date: hour, minute and second as one number, and the Z.
#[tactic(auto, unfolding(crate::specs::Time::clock_in, crate::specs::Time::after, terms::specs::Answer::pick))]
fn clock_in(w: &[u8]) -> Option<u64>
    ensures { (result ≡ clock_in w.now) × AtMost 99999999 result }
{
    let hour = part_at(w, HOUR, 2, 0, LAST_HOUR)?;
    let minute = part_at(w, MINUTE, 2, 0, LAST_MINUTE)?;
    let second = part_at(w, SECOND, 2, 0, LAST_SECOND)?;
    if closes(w) {
        Some(joined(hour, minute, second))
    } else {
        None
    }
}

// The number of the time that a window begins with.
fn time_in(w: &[u8]) -> Option<u64>
    ensures { result ≡ told (time_from year_digits w.now 0) }
{
    let date = date_in(w)?;
    let clock = clock_in(w)?;
    Some(date * 1000000 + clock)
}

// Whether the content from `a` to `z` is a time, in the item whose tag stands at `at`.
pub fn time(s: &[u8], at: usize, a: usize, z: usize) -> Result<(), Refusal>
    ensures { result ≡ checked_at time_rule s.now at a z }
{
    let w = windows::window(s, a, z);
    if w.len() == TIME_BYTES && time_in(w).is_some() {
        Ok(())
    } else {
        Err(Reason::BadTime.at(at))
    }
}

// The number of the time in the content from `a` to `z`, 0 where there is none.
pub fn moment(s: &[u8], a: usize, z: usize) -> u64
    ensures { instant result ≡ moment_of (slice a z s.now) }
{
    time_in(windows::window(s, a, z)).unwrap_or(0)
}

// Whether the first eight of fourteen digits are a date.
#[tactic(auto, using(crate::specs::Laws::Real::date_there), unfolding(crate::specs::Time::inside))]
fn is_date(n: u64) -> bool
    requires { n ≤ 99999999999999 }
    ensures { result ≡ there (date_in (written n)) }
{
    let year = n / 10000000000;
    let month = n / 100000000 % 100;
    let day = n / 1000000 % 100;
    is_within(1, LAST_MONTH, month) && is_within(1, month_length(year, month), day)
}

// Whether the last six of fourteen digits are hour, minute and second.
#[tactic(auto, using(crate::specs::Laws::Real::clock_there))]
fn is_clock(n: u64) -> bool
    ensures { result ≡ there (clock_in (written n)) }
{
    let hour = n / 10000 % 100;
    let minute = n / 100 % 100;
    let second = n % 100;
    is_within(0, LAST_HOUR, hour)
        && is_within(0, LAST_MINUTE, minute)
        && is_within(0, LAST_SECOND, second)
}

// Whether a finding's number is a real date and time in fourteen digits.
#[tactic(auto, using(crate::specs::Laws::Real::real_there, crate::specs::Laws::Real::real_past))]
pub fn is_real(n: u64) -> bool
    ensures { result ≡ is_real n }
{
    n <= 99999999999999 && is_date(n) && is_clock(n)
}
