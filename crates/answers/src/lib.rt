// What is said of a content: the item or its refusal, and whether it is the content that is named.
#![tactic(auto)]

ghost use Rattle.std.specs.Prelude.{◌≡◌};
ghost use Rattle.std.proofs.Math.Seq.{slice};
ghost use Rattle.layouts.specs.Scan.{judged_at};
ghost use Rattle.primitives.specs.Primitive.{says};

use heads::Span;
use primitives::Content;
use terms::Refusal;

// What a content's rule answers, as the item or its refusal.
pub fn judged(c: Result<(), Refusal>, a: usize, z: usize) -> Result<Span, Refusal>
    ensures { result ≡ judged_at c a z }
{
    c?;
    Ok(Span { start: a, end: z })
}

// Whether what stands from one position to another is the content that is named.
pub fn is_content(s: &[u8], c: Content, a: usize, z: usize) -> bool
    ensures { result ≡ says c (slice a z s.now) }
{
    let w = windows::window(s, a, z);
    match c {
        Content::Kind1 => windows::is_same(w, b"\x01"),
    }
}
