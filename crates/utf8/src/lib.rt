// The characters of UTF-8: whether a content is text of a UTF8String.
#![tactic(auto)]

ghost use Rattle.std.specs.Prelude.{◌≡◌, [], ◌∷◌, ◌+◌, ◌≤◌, ◌<◌, length, get_or, drop, replicate};
ghost use Rattle.contents.specs.Text.{is_text, utf8 as utf8Characters};
ghost use Rattle.utf8.specs.Text.{goes_on, size_with, character_size};

// Whether a byte from one number to another stands at a position.
fn stands(w: &[u8], i: usize, low: u8, high: u8) -> bool
    ensures { result ≡ goes_on ((low, high) ∷ []) (drop i w.now) }
{
    if w.len() <= i {
        return false;
    }
    low <= w[i] && w[i] <= high
}

// How many bytes the character at a position has: a second byte from one number to another, and so many tails (80 to BF); 0 unless they are there.
// Kept: 0 where none stands is what the definition of a character's size says, here and in `size_at`.
fn followed(w: &[u8], i: usize, low: u8, high: u8, tails: usize) -> usize
    requires { (i < length w.now) × (tails ≤ 2) }
    ensures { result ≡ size_with ((low, high) ∷ replicate tails (0x80, 0xBF)) (drop (i + 1) w.now) }
{
    if !stands(w, i + 1, low, high) {
        return 0;
    }
    for k in 0..tails {
        if !stands(w, i + 2 + k, 0x80, 0xBF) {
            return 0;
        }
    }
    2 + tails
}

// How many bytes the character of UTF-8 at a position has, by its first byte and the rows of RFC 3629; 0 where none stands there.
fn size_at(w: &[u8], i: usize, b: u8) -> usize
    requires { (i < length w.now) × (b ≡ get_or w.now i 0) }
    ensures { result ≡ character_size utf8Characters (drop i w.now) }
{
    match b {
        0x00..=0x7F => 1,
        0xC2..=0xDF => followed(w, i, 0x80, 0xBF, 0),
        0xE0 => followed(w, i, 0xA0, 0xBF, 1),
        0xE1..=0xEC => followed(w, i, 0x80, 0xBF, 1),
        0xED => followed(w, i, 0x80, 0x9F, 1),
        0xEE..=0xEF => followed(w, i, 0x80, 0xBF, 1),
        0xF0 => followed(w, i, 0x90, 0xBF, 2),
        0xF1..=0xF3 => followed(w, i, 0x80, 0xBF, 2),
        0xF4 => followed(w, i, 0x80, 0x8F, 2),
        _ => 0,
    }
}

// Whether a content is text of a UTF8String. One of ASCII alone is told apart first, as its bytes are compared faster.
pub fn is_utf8(w: &[u8]) -> bool
    ensures { result ≡ is_text utf8Characters w.now }
{
    if characters::is_ia5(w) {
        return true;
    }
    // Kept: `str::from_utf8` takes 39 instructions for a Chinese character, and the bar is 36.
    let mut i = 0;
    while i < w.len() {
        let n = size_at(w, i, w[i]);
        if n == 0 {
            return false;
        }
        i += n;
    }
    true
}
