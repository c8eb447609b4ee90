// The rule of identifiers: an item's content is the window from `a` to `z` of the slice, its tag stands at `at`.
#![tactic(auto)]

ghost use Rattle.std.specs.Prelude.{◌≡◌, true};
ghost use Rattle.contents.specs.Text.{parts_from, is_identifier};
ghost use Rattle.contents.specs.Rules.{identifier_rule};
ghost use Rattle.contents.specs.Scan.{checked_at};

use terms::{Reason, Refusal};

// Whether a content is whole parts, none of which begins with 80: a part goes on while its bytes are 80 or above.
fn whole_parts(w: &[u8]) -> bool
    ensures { result ≡ parts_from true w.now }
{
    let mut begins = true;
    for b in w {
        if begins && *b == 0x80 {
            return false;
        }
        begins = *b < 0x80;
    }
    begins
}

// Whether a content is an identifier: 1 to 64 bytes that are whole parts.
#[tactic(auto, unfolding(contents::specs::Text::is_identifier))]
fn is_identifier(w: &[u8]) -> bool
    ensures { result ≡ is_identifier w.now }
{
    1 <= w.len() && w.len() <= 64 && whole_parts(w)
}

// An identifier: 11 unless it is one.
pub fn identifier(s: &[u8], at: usize, a: usize, z: usize) -> Result<(), Refusal>
    ensures { result ≡ checked_at identifier_rule s.now at a z }
{
    let w = windows::window(s, a, z);
    octets::ask(is_identifier(w), Reason::BadIdentifier, at)
}
