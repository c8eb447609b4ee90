// Bytes stored one after another in a destination, as far as it has room; each function answers the position after them.
#![tactic(auto)]

ghost use Rattle.std.specs.Prelude.{◌≡◌, [], ◌∷◌, replicate};
ghost use Rattle.stores.specs.Store.{bump as bumpOf, advance, puts, room_for};

// Where positions stop.
const CAP: usize = 4294967296;

// The position after a byte.
#[tactic(auto, unfolding(crate::specs::Store::bump, terms::specs::Answer::pick))]
fn bump(o: usize) -> usize
    ensures { result ≡ bumpOf o }
{
    if o < CAP { o + 1 } else { o }
}

// The position after so many bytes.
pub fn add(o: usize, n: usize) -> usize
    ensures { result ≡ advance o n }
{
    if CAP <= o {
        o
    } else {
        o.saturating_add(n).min(CAP)
    }
}

// One byte.
pub fn put(dst: &mut [u8], o: usize, b: u8) -> usize
    ensures { (result, dst.new) ≡ puts (b ∷ []) dst.old o }
{
    if o < dst.len() {
        dst[o] = b;
    }
    bump(o)
}

// One byte, so many times.
pub fn repeated(dst: &mut [u8], o: usize, b: u8, n: usize) -> usize
    ensures { (result, dst.new) ≡ puts (replicate n b) dst.old o }
{
    let mut p = o;
    for _ in 0..n {
        p = put(dst, p, b);
    }
    p
}

// Whether `n` bytes have room from a position on in a destination of `size` bytes, all of it before positions stop.
#[tactic(auto, unfolding(crate::specs::Store::room_for))]
pub fn has_room(size: usize, o: usize, n: usize) -> bool
    ensures { result ≡ room_for size o n }
{
    size <= CAP && o <= size && n <= size - o
}
