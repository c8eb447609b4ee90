// The head of a list by positions.
#![tactic(auto)]

ghost use Rattle.std.specs.Prelude.{◌≡◌};
ghost use Rattle.tags.specs.Tag.{tag_byte};
ghost use Rattle.list_heads.specs.Head.{list_head_at};

use heads::Span;
use tags::Tag;
use terms::{Reason, Refusal};

// The head of a list: 15 if it has no item and needs one.
pub fn list_head(s: &[u8], t: Tag, empty: bool, at: usize, end: usize) -> Result<Span, Refusal>
    ensures { result ≡ list_head_at (tag_byte t) empty s.now at end }
{
    let inside = items::head(s, t, at, end)?;
    if !windows::enough(inside.start, inside.end, empty) {
        return Err(Reason::NoItem.at(at));
    }
    Ok(inside)
}
