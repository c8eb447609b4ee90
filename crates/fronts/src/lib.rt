// What stands before a value or before items, in a destination: in a record the head of an item, in a sheet a count or a mark.
#![tactic(auto)]

ghost use Rattle.std.specs.Prelude.{◌≡◌, ◌∷◌};
ghost use Rattle.tags.specs.Tag.{tag_byte};
ghost use Rattle.heads.specs.Head.{forms, octets};
ghost use Rattle.layouts.specs.Sheet.{count as count_of};
ghost use Rattle.sides.specs.Move.{front as frontOf, mark as mark_of};
ghost use Rattle.stores.specs.Store.{puts};

use sides::Side;
use tags::Tag;

// A count of a sheet: four bytes, the highest first.
fn count(dst: &mut [u8], o: usize, n: usize) -> usize
    ensures { (result, dst.new) ≡ puts (count_of n) dst.old o }
{
    let [.., a, b, c, d] = n.to_be_bytes();
    copies::copied(dst, o, &[a, b, c, d])
}

// The length of a content in its shortest form; nothing from 65,536 on.
fn size(dst: &mut [u8], o: usize, n: usize) -> usize
    ensures { (result, dst.new) ≡ puts (octets forms n) dst.old o }
{
    let [.., a, b] = n.to_be_bytes();
    if n < 128 {
        copies::copied(dst, o, &[b])
    } else if n < 256 {
        copies::copied(dst, o, &[0x81, b])
    } else if n < 65536 {
        copies::copied(dst, o, &[0x82, a, b])
    } else {
        o
    }
}

// The head of an item: its tag, and the length of its content.
fn head(dst: &mut [u8], o: usize, t: Tag, n: usize) -> usize
    ensures { (result, dst.new) ≡ puts (tag_byte t ∷ octets forms n) dst.old o }
{
    let p = stores::put(dst, o, tags::tag_byte(t));
    size(dst, p, n)
}

// What stands before the items in an item, `items` of them and `n` bytes together; `listed`: it is a list.
// Kept: a struct of the lent destination and its position would be taken apart and built anew at each call.
#[tactic(auto, using(stores::specs::Laws::Store::puts_none), unfolding(sides::specs::Move::front))]
pub fn front(
    dst: &mut [u8],
    pos: usize,
    to: Side,
    t: Tag,
    listed: bool,
    items: usize,
    n: usize,
) -> usize
    ensures { (result, dst.new) ≡ puts (frontOf to (tag_byte t) listed items n) dst.old pos }
{
    match to {
        Side::Record => head(dst, pos, t, n),
        Side::Sheet if listed => count(dst, pos, items),
        Side::Sheet => pos,
    }
}

// What stands before an optional item, or in its stead: in a sheet 1 or 0.
#[tactic(auto, using(stores::specs::Laws::Store::puts_none), unfolding(sides::specs::Move::mark))]
pub fn mark(dst: &mut [u8], pos: usize, to: Side, there: bool) -> usize
    ensures { (result, dst.new) ≡ puts (mark_of to there) dst.old pos }
{
    match to {
        Side::Record => pos,
        Side::Sheet => count(dst, pos, usize::from(there)),
    }
}
