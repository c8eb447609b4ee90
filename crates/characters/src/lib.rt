// The characters of one byte: whether a content is text of an IA5String or of a PrintableString.
#![tactic(auto)]

ghost use Rattle.std.specs.Prelude.{◌≡◌, max};
ghost use Rattle.std.specs.List.{fold};
ghost use Rattle.contents.specs.Text.{starts, is_text, ia5 as ia5Characters, printable as printableCharacters};

// The largest byte of a content, 0 where it has none. Every byte is looked at, with no way out, so that many are compared at once.
fn largest(w: &[u8]) -> u8
    ensures { result ≡ fold max 0 w.now }
{
    w.iter().fold(0, |most: u8, b| most.max(*b))
}

// Whether a content is text of an IA5String: its bytes are below 80.
// Kept: `w.is_ascii()` takes some twenty instructions more where a text is short, as texts of records are.
#[tactic(auto, using(crate::specs::Laws::below_80))]
pub fn is_ia5(w: &[u8]) -> bool
    ensures { result ≡ is_text ia5Characters w.now }
{
    largest(w) < 0x80
}

// Whether a byte is a character of a PrintableString: a letter, a digit, a space, or one of ' ( ) + , - . / : = ?
#[tactic(auto, unfolding(contents::specs::Text::starts, contents::specs::Text::within))]
fn is_printable_byte(b: u8) -> bool
    ensures { result ≡ starts printableCharacters b }
{
    match b {
        b'A'..=b'Z' | b'a'..=b'z' | b'0'..=b'9' => true,
        b' ' | b'\''..=b')' | b'+'..=b'/' | b':' | b'=' | b'?' => true,
        _ => false,
    }
}

// Whether a content is text of a PrintableString.
pub fn is_printable(w: &[u8]) -> bool
    ensures { result ≡ is_text printableCharacters w.now }
{
    w.iter().all(|b| is_printable_byte(*b))
}
