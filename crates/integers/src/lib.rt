// An INTEGER by its rule: a content that is a number, and a number that is allowed.
#![tactic(auto)]

ghost use Rattle.std.specs.Prelude.{◌≡◌};
ghost use Rattle.contents.specs.Integer.{from_one};
ghost use Rattle.contents.specs.Leaves.{known_rule, version as versionItem};
ghost use Rattle.contents.specs.Rules.{integer_rule};
ghost use Rattle.contents.specs.Scan.{checked_at};
ghost use Rattle.integers.specs.Allowed.{allowed_of};

use terms::Reason::{BadInteger, NotAllowed};
use terms::Refusal;

// Which numbers are allowed.
#[derive(Clone, Copy)]
pub enum Allowed {
    Any,
    Kind,
    Millimetres,
}

// Whether a number lies from 1 to another.
fn is_within(v: i64, most: i64) -> bool
    ensures { result ≡ from_one most v }
{
    1 <= v && v <= most
}

// Whether a number is allowed.
fn is_allowed(allowed: Allowed, v: i64) -> bool
    ensures { result ≡ allowed_of allowed v }
{
    match allowed {
        Allowed::Any => true,
        Allowed::Kind => is_within(v, 2),
        Allowed::Millimetres => is_within(v, 65535),
    }
}

// An INTEGER by its rule: 6, then 7 where its number is not allowed.
pub fn integer(s: &[u8], at: usize, a: usize, z: usize, allowed: Allowed) -> Result<(), Refusal>
    ensures { result ≡ checked_at (integer_rule (allowed_of allowed)) s.now at a z }
{
    let Some(v) = numbers::read(s, a, z) else {
        return Err(BadInteger.at(at));
    };
    if is_allowed(allowed, v) {
        Ok(())
    } else {
        Err(NotAllowed.at(at))
    }
}

// The version by its rule: 6, then 7 where it is not 4.
pub fn version(s: &[u8], at: usize, a: usize, z: usize) -> Result<(), Refusal>
    ensures { result ≡ checked_at (known_rule versionItem) s.now at a z }
{
    let Some(_) = numbers::read(s, a, z) else {
        return Err(BadInteger.at(at));
    };
    let c = windows::window(s, a, z);
    if windows::is_same(c, b"\x04") {
        Ok(())
    } else {
        Err(NotAllowed.at(at))
    }
}
