// The rules of strings: an item's content is the window from `a` to `z` of the slice, its tag stands at `at`.
#![tactic(auto)]

ghost use Rattle.std.specs.Prelude.{◌≡◌};
ghost use Rattle.contents.specs.Text.{is_text, ia5 as ia5Characters, printable as printableCharacters, utf8 as utf8Characters};
ghost use Rattle.contents.specs.Rules.{string_rule};
ghost use Rattle.contents.specs.Leaves.{header_name, known_rule};
ghost use Rattle.contents.specs.Scan.{checked_at};
ghost use Rattle.texts.specs.Text.{characters_of};

use terms::{NEVER_EMPTY, Reason, Refusal};

// The alphabets of strings.
#[derive(Clone, Copy)]
enum Alphabet {
    Ia5,
    Printable,
    Utf8,
}

// Whether a content is whole characters of an alphabet.
// Kept: by its name an alphabet stands in the clause; a closure would stand there by what it promises.
fn is_text(w: &[u8], alphabet: Alphabet) -> bool
    ensures { result ≡ is_text (characters_of alphabet) w.now }
{
    match alphabet {
        Alphabet::Ia5 => characters::is_ia5(w),
        Alphabet::Printable => characters::is_printable(w),
        Alphabet::Utf8 => utf8::is_utf8(w),
    }
}

// A string: 14 where a byte is needed and none is there, then 9 unless it is text.
fn string(
    s: &[u8],
    alphabet: Alphabet,
    at: usize,
    a: usize,
    z: usize,
    empty: bool,
) -> Result<(), Refusal>
    ensures { result ≡ checked_at (string_rule (characters_of alphabet) empty) s.now at a z }
{
    let w = windows::window(s, a, z);
    octets::ask_two(
        windows::enough(0, w.len(), empty),
        Reason::NoBytes,
        is_text(w, alphabet),
        Reason::BadCharacter,
        at,
    )
}

// An IA5String, whose bytes are below 80.
pub fn ia5(s: &[u8], at: usize, a: usize, z: usize, empty: bool) -> Result<(), Refusal>
    ensures { result ≡ checked_at (string_rule ia5Characters empty) s.now at a z }
{
    string(s, Alphabet::Ia5, at, a, z, empty)
}

// A PrintableString, as X.680 has it.
pub fn printable(s: &[u8], at: usize, a: usize, z: usize, empty: bool) -> Result<(), Refusal>
    ensures { result ≡ checked_at (string_rule printableCharacters empty) s.now at a z }
{
    string(s, Alphabet::Printable, at, a, z, empty)
}

// A UTF8String, as RFC 3629 has it.
pub fn utf8(s: &[u8], at: usize, a: usize, z: usize, empty: bool) -> Result<(), Refusal>
    ensures { result ≡ checked_at (string_rule utf8Characters empty) s.now at a z }
{
    string(s, Alphabet::Utf8, at, a, z, empty)
}

// The header's name: 14 and 9 as of an IA5String that needs a byte, then 8 unless it is "ES".
pub fn header_name(s: &[u8], at: usize, a: usize, z: usize) -> Result<(), Refusal>
    ensures { result ≡ checked_at (known_rule header_name) s.now at a z }
{
    ia5(s, at, a, z, NEVER_EMPTY)?;
    let w = windows::window(s, a, z);
    octets::ask(windows::is_same(w, b"ES"), Reason::NotEs, at)
}
