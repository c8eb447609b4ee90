// Windows of a slice: from a position up to an end that may lie past the slice.
#![tactic(auto)]

ghost use Rattle.std.specs.Prelude.{◌≡◌, take, drop, ◌||◌, ltb};
ghost use Rattle.std.proofs.Math.Seq.{slice};
ghost use Rattle.terms.specs.Answer.{same};
ghost use Rattle.windows.specs.Window.{clamp};

// The nearer of two ends.
#[tactic(auto, unfolding(crate::specs::Window::clamp, terms::specs::Answer::pick))]
pub fn nearer(end: usize, n: usize) -> usize
    ensures { result ≡ clamp end n }
{
    end.min(n)
}

// Whether a window from `a` to `z` has the byte that it needs; `empty`: it may have none.
pub fn enough(a: usize, z: usize, empty: bool) -> bool
    ensures { result ≡ empty || ltb a z }
{
    empty || a < z
}

// What stands from one position to another, as much of it as there is.
pub fn window(s: &[u8], a: usize, z: usize) -> &[u8]
    ensures { result.now ≡ slice a z s.now }
{
    let end = z.min(s.len());
    if a < end { &s[a..end] } else { &[] }
}

// Whether a window has just the bytes of another.
#[tactic(auto, using(crate::specs::Laws::Same::pointwise_same))]
pub fn is_same(w: &[u8], v: &[u8]) -> bool
    ensures { result ≡ same w.now v.now }
{
    w == v
}
