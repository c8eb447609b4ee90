// What stands around an item: whether one begins here, where what follows it starts, and what is left over.
#![tactic(auto)]

ghost use Rattle.std.specs.Prelude.{◌≡◌};
ghost use Rattle.heads.specs.Scan.{past_of, begins_at, close_at};
ghost use Rattle.tags.specs.Tag.{tag_byte};

use heads::Span;
use tags::Tag;
use terms::{Reason, Refusal};

// Where what follows an item starts, or its refusal.
pub fn past(x: Result<Span, Refusal>) -> Result<usize, Refusal>
    ensures { result ≡ past_of x }
{
    Ok(x?.end)
}

// Whether an item of a tag begins here: its tag alone makes an optional item present.
pub fn begins(s: &[u8], tag: Tag, at: usize, end: usize) -> bool
    ensures { result ≡ begins_at (tag_byte tag) s.now at end }
{
    if end <= at || s.len() <= at {
        return false;
    }
    s[at] == tags::tag_byte(tag)
}

// The end of what stands in a tag: 5 at the first byte left over.
pub fn close(at: usize, end: usize) -> Result<usize, Refusal>
    ensures { result ≡ close_at at end }
{
    if at < end {
        return Err(Reason::LeftOver.at(at));
    }
    Ok(end)
}
