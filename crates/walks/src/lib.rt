// One reader over the table of layouts, which notes where each field stands, and of a refusal the innermost field that it is about: each item
// that is refused notes its name, and the first name stays.
#![tactic(auto)]

ghost use Rattle.std.specs.Prelude.{◌≡◌};
ghost use Rattle.structures.specs.Structure.{row_of, layout_of};
ghost use Rattle.walks.specs.Walk.{item_walk, row_walk, member_walk, list_walk, record_walk};

use heads::Span;
use primitives::Primitive;
use rows::Member;
use structures::{Build, Row, Structure};
use tags::Tag;
use terms::{Field, Reason, Refusal};

// An item under its name, up to its encloser's end: where what follows it starts, or the first refusal in it.
// Kept: a struct of the record and the lent table would be taken apart and built anew at each call.
#[cycle(item_list_member_row)]
fn item(
    s: &[u8],
    x: Structure,
    name: Field,
    index: usize,
    at: usize,
    end: usize,
    places: &mut [usize],
) -> Result<usize, Refusal>
    ensures { (result, places.new) ≡ item_walk (layout_of x) name index s.now at end places.old }
{
    match structures::build_of(x) {
        Build::Leaf(primitive) => {
            edges::past(entries::leaf(s, primitive, name, index, at, end, places))
        }
        Build::Node(t, members) => {
            let inside = blames::blaming(items::head(s, t, at, end), name, places)?;
            places::note(places, name, index, at, inside.end, 0);
            let read = row(s, members, index, inside.start, inside.end, places);
            blames::blaming(read, name, places)
        }
        Build::List {
            tag,
            empty,
            most,
            name: item_name,
            each,
        } => {
            let head = list_heads::list_head(s, tag, empty, at, end);
            let inside = blames::blaming(head, name, places)?;
            let read = list(s, each, most, item_name, inside.start, inside.end, places);
            let count = blames::blaming(read, name, places)?;
            places::note(places, name, index, at, inside.end, count);
            Ok(inside.end)
        }
        Build::Wrap(t, y) => {
            let inside = blames::blaming(items::head(s, t, at, end), name, places)?;
            let next = item(s, y, name, index, inside.start, inside.end, places)?;
            blames::blaming(edges::close(next, inside.end), name, places)
        }
    }
}

// The members of a row, one after another, to the end: 5 if bytes are left over.
#[cycle(item_list_member_row)]
fn row(
    s: &[u8],
    x: Row,
    index: usize,
    at: usize,
    end: usize,
    places: &mut [usize],
) -> Result<usize, Refusal>
    ensures { (result, places.new) ≡ row_walk (row_of x) index s.now at end places.old }
{
    let members = rows::members_of(x);
    let mut p = at;
    for m in &members {
        // Kept: with `?` the wrong edit that places a refusal anew is refused for its form alone.
        match member(s, *m, index, p, end, places) {
            Ok(next) => p = next,
            Err(refusal) => return Err(refusal),
        }
    }
    edges::close(p, end)
}

// A member of a row.
#[cycle(item_list_member_row)]
fn member(
    s: &[u8],
    m: Member,
    index: usize,
    at: usize,
    end: usize,
    places: &mut [usize],
) -> Result<usize, Refusal>
    ensures { (result, places.new) ≡ member_walk m index s.now at end places.old }
{
    match m {
        Member::Blank => Ok(at),
        Member::Known(w) => edges::past(leaves::known(s, w, at, end)),
        Member::Leaf(name, primitive) => {
            edges::past(entries::leaf(s, primitive, name, index, at, end, places))
        }
        Member::Part(name, x) => item(s, x, name, index, at, end, places),
        Member::Maybe(name, x) => {
            if !edges::begins(s, structures::tag_of(x), at, end) {
                return Ok(at);
            }
            item(s, x, name, index, at, end, places)
        }
        Member::Flag(name) => {
            if !edges::begins(s, Tag::Boolean, at, end) {
                return Ok(at);
            }
            edges::past(entries::leaf(s, Primitive::Critical, name, index, at, end, places))
        }
        Member::Choice {
            by,
            primitive,
            content,
            name,
            first,
            second,
        } => {
            let value = entries::leaf(s, primitive, by, index, at, end, places)?;
            if answers::is_content(s, content, value.start, value.end) {
                return item(s, first, name, index, value.end, end, places);
            }
            item(s, second, name, index, value.end, end, places)
        }
    }
}

// The items of a list, one after another, to the end, and their number: 16 where there is one more than the most.
#[cycle(item_list_member_row)]
fn list(
    s: &[u8],
    x: Structure,
    most: usize,
    name: Field,
    at: usize,
    end: usize,
    places: &mut [usize],
) -> Result<usize, Refusal>
    ensures { (result, places.new) ≡ list_walk (layout_of x) name most 0 s.now at end places.old }
{
    let mut p = at;
    for k in 0..most {
        if end <= p {
            return Ok(k);
        }
        p = item(s, x, name, k, p, end, places)?;
    }
    if p < end {
        return Err(Reason::TooManyItems.at(p));
    }
    Ok(most)
}

// A record of at most `most` bytes at a position, whatever follows it: where it ends, or the first refusal in it. The fields that it
// passes are noted, also those before a refusal.
pub fn record(
    s: &[u8],
    x: Row,
    most: usize,
    at: usize,
    end: usize,
    places: &mut [usize],
) -> Result<usize, Refusal>
    ensures { (result, places.new) ≡ record_walk most (row_of x) s.now at end places.old }
{
    let inside = items::outermost(s, most, Tag::Sequence, at, end)?;
    row(s, x, 0, inside.start, inside.end, places)
}
