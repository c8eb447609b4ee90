// The rules of octets, bits and the BOOLEAN: an item's content is the window from `a` to `z` of the slice, its tag stands at `at`.
#![tactic(auto)]

ghost use Rattle.std.specs.Prelude.{◌≡◌, ℕ, [], ◌∷◌, take};
ghost use Rattle.terms.specs.Answer.{never_empty, same};
ghost use Rattle.contents.specs.Rules.{octets_rule, boolean_rule};
ghost use Rattle.contents.specs.Content.{fine, ask as asked};
ghost use Rattle.contents.specs.Leaves.{bit_string};
ghost use Rattle.contents.specs.Scan.{checked, checked_at, behind_at};

use terms::{Reason, Refusal};

// What a rule answers by one test: fine, or the refusal at the item's tag.
pub fn ask(holds: bool, reason: Reason, at: usize) -> Result<(), Refusal>
    ensures { (a : ℕ) → result ≡ checked (asked holds reason fine) at a }
{
    if holds { Ok(()) } else { Err(reason.at(at)) }
}

// What a rule answers by two tests, the first before the second.
pub fn ask_two(first: bool, n: Reason, second: bool, m: Reason, at: usize) -> Result<(), Refusal>
    ensures { (a : ℕ) → result ≡ checked (asked first n (asked second m fine)) at a }
{
    ask(first, n, at)?;
    ask(second, m, at)
}

// An OCTET STRING: 14 where a byte is needed.
pub fn octets(s: &[u8], at: usize, a: usize, z: usize, empty: bool) -> Result<(), Refusal>
    ensures { result ≡ checked_at (octets_rule empty) s.now at a z }
{
    let w = windows::window(s, a, z);
    ask(windows::enough(0, w.len(), empty), Reason::NoBytes, at)
}

// A BOOLEAN: 13 unless it is FF alone.
pub fn boolean(s: &[u8], at: usize, a: usize, z: usize) -> Result<(), Refusal>
    ensures { result ≡ checked_at boolean_rule s.now at a z }
{
    let w = windows::window(s, a, z);
    ask(windows::is_same(w, b"\xFF"), Reason::BadBoolean, at)
}

// Whether the first byte of a window is 00.
#[tactic(auto, unfolding(terms::specs::Answer::same))]
fn begins_with_00(w: &[u8]) -> bool
    ensures { result ≡ same (take 1 w.now) (0x00 ∷ []) }
{
    match w {
        [] => false,
        [first, ..] => *first == 0x00,
    }
}

// A BIT STRING: 12 if it is empty or its first byte is not 00, then 14 if nothing comes after that byte.
pub fn bits(s: &[u8], at: usize, a: usize, z: usize) -> Result<(), Refusal>
    ensures { result ≡ behind_at bit_string.front (octets_rule never_empty) s.now at a z }
{
    let w = windows::window(s, a, z);
    ask_two(
        begins_with_00(w),
        Reason::BadBits,
        1 < w.len(),
        Reason::NoBytes,
        at,
    )
}
