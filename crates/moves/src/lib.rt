// One translator over the table of layouts: an item at a position of a source, a record or a sheet, stored in the destination's form. What
// stands before an item says how much stands in it, so that all of it is measured first; what is found is noted in a table, and is known when it is stored.
#![tactic(auto)]

ghost use Rattle.std.specs.Prelude.{◌≡◌, true, ◌&&◌, ◌≤◌, ltb, length, get_or, set};
ghost use Rattle.tags.specs.Tag.{tag_byte};
ghost use Rattle.structures.specs.Structure.{row_of, layout_of};
ghost use Rattle.sides.specs.Move.{move as move_item, moves, closing};
ghost use Rattle.stores.specs.Store.{cap, puts};
ghost use Rattle.pieces.specs.Piece.{wrote};
ghost use Rattle.moves.specs.Walk.{bare, inside, held_move, member_move, list_move, wrote_body, wrote_within};
ghost use Rattle.moves.specs.Notes.{note_by, note_of, notes, notes_all, inside_notes, held_notes, front_notes, member_notes, list_notes, Ready};

use pieces::Moved;
use rows::Member;
use sides::Side;
use sources::{Opened, Source};
use structures::{Build, Row, Structure};
use tags::Tag;

// How many notes there is room for: a record of the rules has at most 204 items that hold others.
const SLOTS: usize = 256;

// Where something starts: in the source, in the destination, and among the notes.
#[derive(Clone, Copy)]
struct Spot {
    at: usize,
    pos: usize,
    slot: usize,
}

impl Spot {
    // Where what follows a piece starts, of which nothing is noted.
    fn past(self, m: Moved) -> Spot
        ensures { (result.at ≡ m.next) × (result.pos ≡ m.to) × (result.slot ≡ self.slot) }
    {
        Spot {
            at: m.next,
            pos: m.to,
            slot: self.slot,
        }
    }
}

// Where what follows an item's content starts, and the number of a list's items.
#[derive(Clone, Copy)]
struct Body {
    next: Spot,
    items: usize,
}

// An item up to its encloser's end, stored from the start of a destination if it has at most `most` bytes and there is room for them; else
// its bytes are counted alone.
pub fn item(
    source: Source<'_>,
    to: Side,
    x: Structure,
    at: usize,
    end: usize,
    most: usize,
    dst: &mut [u8],
) -> Moved
    ensures { (result.next, result.to, dst.new) ≡ wrote_within most (move_item source.entry.side to (layout_of x) source.entry.bytes.now at end) dst.old }
{
    let mut sizes = [0usize; SLOTS];
    let first = Spot {
        at,
        pos: 0,
        slot: 0,
    };
    let n = noted(source, to, x, first, end, &mut [0u8; 0], &mut sizes, false);
    if most < n.pos || dst.len() < n.pos {
        return Moved {
            next: n.at,
            to: n.pos,
        };
    }
    let m = noted(source, to, x, first, end, dst, &mut sizes, true);
    Moved {
        next: m.at,
        to: m.pos,
    }
}

// Whether nothing stands before what an item holds: in a sheet only lists have a count.
fn is_bare(to: Side, listed: bool) -> bool
    ensures { result ≡ bare to listed }
{
    match to {
        Side::Record => false,
        Side::Sheet => !listed,
    }
}

// Whether a note is known and stands in a table of `size` notes.
fn is_noted(known: bool, slot: usize, size: usize) -> bool
    ensures { result ≡ (known && ltb slot size) }
{
    known && slot < size
}

// What is noted of an item that was measured: in a record its bytes, in a sheet its items.
fn note_of(to: Side, items: usize, n: usize) -> usize
    ensures { result ≡ note_by to items n }
{
    match to {
        Side::Record => n,
        Side::Sheet => items,
    }
}

// The note that stands in a slot of the table; past its end none.
fn note_at(sizes: &[usize], slot: usize) -> usize
    ensures { result ≡ get_or sizes.now slot 0 }
{
    sizes.get(slot).copied().unwrap_or(0)
}

// A note, where there is room for it.
fn note(sizes: &mut [usize], slot: usize, n: usize)
    ensures { sizes.new ≡ set sizes.old slot n }
{
    if slot < sizes.len() {
        sizes[slot] = n;
    }
}

// An item, with a table of notes; `known`: the item's own notes stand in it already.
// Kept: the destination, the table and `known` stay parameters of their own: a struct of two lent slices would be lent anew at each call, field by field.
#[cycle(content_held_list_measured_member_noted_row_stored)]
fn noted(
    source: Source<'_>,
    to: Side,
    x: Structure,
    here: Spot,
    end: usize,
    dst: &mut [u8],
    sizes: &mut [usize],
    known: bool,
) -> Spot
    requires { Ready known (notes source.side to (layout_of x) source.bytes.now here.at end) sizes.old here.slot }
    ensures dst_after { (result.at, result.pos, dst.new) ≡ wrote (move_item source.entry.side to (layout_of x) source.entry.bytes.now here.at end) dst.old here.pos }
    ensures sizes_after { (result.slot, sizes.new) ≡ puts (notes source.entry.side to (layout_of x) source.entry.bytes.now here.at end) sizes.old here.slot }
{
    match structures::build_of(x) {
        Build::Leaf(primitive) => here.past(pieces::leaf(
            source, to, primitive, here.at, end, dst, here.pos,
        )),
        Build::Node(t, _) => held(source, to, x, t, false, here, end, dst, sizes, known),
        Build::List {
            tag,
            empty: _,
            most: _,
            name: _,
            each: _,
        } => held(source, to, x, tag, true, here, end, dst, sizes, known),
        Build::Wrap(t, _) => held(source, to, x, t, false, here, end, dst, sizes, known),
    }
}

// An item that holds others: by its note, or measured first.
#[cycle(content_held_list_measured_member_noted_row_stored)]
fn held(
    source: Source<'_>,
    to: Side,
    x: Structure,
    t: Tag,
    listed: bool,
    here: Spot,
    end: usize,
    dst: &mut [u8],
    sizes: &mut [usize],
    known: bool,
) -> Spot
    requires { Ready known (held_notes source.side to (layout_of x) (tag_byte t) listed source.bytes.now here.at end) sizes.old here.slot }
    ensures dst_after { (result.at, result.pos, dst.new) ≡ wrote (held_move source.entry.side to (layout_of x) (tag_byte t) listed source.entry.bytes.now here.at end) dst.old here.pos }
    ensures sizes_after { (result.slot, sizes.new) ≡ puts (held_notes source.entry.side to (layout_of x) (tag_byte t) listed source.entry.bytes.now here.at end) sizes.old here.slot }
{
    let pos = here.pos;
    let slot = here.slot;
    let h = source.open(t, listed, here.at, end);
    if is_bare(to, listed) {
        let b = content(source, to, x, h, dst, pos, sizes, slot, known);
        return Spot {
            at: source.after(h.end, b.next.at),
            pos: b.next.pos,
            slot: b.next.slot,
        };
    }
    if is_noted(known, slot, sizes.len()) {
        let n = note_at(sizes, slot);
        return stored(source, to, x, t, listed, h, dst, pos, n, sizes, slot);
    }
    measured(source, to, x, t, listed, h, dst, pos, sizes, slot)
}

// An item that holds others, by its note `n`: what stands before it, then what stands in it.
#[cycle(content_held_list_measured_member_noted_row_stored)]
fn stored(
    source: Source<'_>,
    to: Side,
    x: Structure,
    t: Tag,
    listed: bool,
    h: Opened,
    dst: &mut [u8],
    pos: usize,
    n: usize,
    sizes: &mut [usize],
    slot: usize,
) -> Spot
    requires { (n ≡ note_of to (inside source.side to (layout_of x) source.bytes.now h.count h.start h.end)) × Ready true (front_notes source.side to (layout_of x) source.bytes.now h.count h.start h.end) sizes.old slot }
    ensures dst_after { (result.at, result.pos, dst.new) ≡ wrote (closing source.entry.side to (tag_byte t) listed h.end (inside source.entry.side to (layout_of x) source.entry.bytes.now h.count h.start h.end)) dst.old pos }
    ensures sizes_after { (result.slot, sizes.new) ≡ puts (front_notes source.entry.side to (layout_of x) source.entry.bytes.now h.count h.start h.end) sizes.old slot }
{
    let o = fronts::front(dst, pos, to, t, listed, n, n);
    let b = content(source, to, x, h, dst, o, sizes, stores::add(slot, 1), true);
    Spot {
        at: source.after(h.end, b.next.at),
        pos: b.next.pos,
        slot: b.next.slot,
    }
}

// An item that holds others: what stands in it is measured and noted, then all of it is stored.
#[cycle(content_held_list_measured_member_noted_row_stored)]
fn measured(
    source: Source<'_>,
    to: Side,
    x: Structure,
    t: Tag,
    listed: bool,
    h: Opened,
    dst: &mut [u8],
    pos: usize,
    sizes: &mut [usize],
    slot: usize,
) -> Spot
    requires { length sizes.old ≤ cap }
    ensures dst_after { (result.at, result.pos, dst.new) ≡ wrote (closing source.entry.side to (tag_byte t) listed h.end (inside source.entry.side to (layout_of x) source.entry.bytes.now h.count h.start h.end)) dst.old pos }
    ensures sizes_after { (result.slot, sizes.new) ≡ puts (front_notes source.entry.side to (layout_of x) source.entry.bytes.now h.count h.start h.end) sizes.old slot }
{
    let mut none = [0u8; 0];
    let b = content(
        source,
        to,
        x,
        h,
        &mut none,
        0,
        sizes,
        stores::add(slot, 1),
        false,
    );
    let n = note_of(to, b.items, b.next.pos);
    note(sizes, slot, n);
    if dst.len() <= pos {
        let o = fronts::front(dst, pos, to, t, listed, n, n);
        return Spot {
            at: source.after(h.end, b.next.at),
            pos: stores::add(o, b.next.pos),
            slot: b.next.slot,
        };
    }
    stored(source, to, x, t, listed, h, dst, pos, n, sizes, slot)
}

// What stands in an item; nothing in a primitive one.
#[cycle(content_held_list_measured_member_noted_row_stored)]
fn content(
    source: Source<'_>,
    to: Side,
    x: Structure,
    h: Opened,
    dst: &mut [u8],
    pos: usize,
    sizes: &mut [usize],
    slot: usize,
    known: bool,
) -> Body
    requires { Ready known (inside_notes source.side to (layout_of x) source.bytes.now h.count h.start h.end) sizes.old slot }
    ensures dst_after { (result.next.at, result.items, result.next.pos, dst.new) ≡ wrote_body (inside source.entry.side to (layout_of x) source.entry.bytes.now h.count h.start h.end) dst.old pos }
    ensures sizes_after { (result.next.slot, sizes.new) ≡ puts (inside_notes source.entry.side to (layout_of x) source.entry.bytes.now h.count h.start h.end) sizes.old slot }
{
    let here = Spot {
        at: h.start,
        pos,
        slot,
    };
    match structures::build_of(x) {
        Build::Leaf(_) => Body {
            next: here,
            items: 0,
        },
        Build::Node(_, members) => Body {
            next: row(source, to, members, here, h.end, dst, sizes, known),
            items: 0,
        },
        Build::List {
            tag: _,
            empty: _,
            most,
            name: _,
            each,
        } => list(
            source, to, each, most, h.count, here, h.end, dst, sizes, known,
        ),
        Build::Wrap(_, y) => Body {
            next: noted(source, to, y, here, h.end, dst, sizes, known),
            items: 0,
        },
    }
}

// The members of a row, one after another.
#[cycle(content_held_list_measured_member_noted_row_stored)]
fn row(
    source: Source<'_>,
    to: Side,
    x: Row,
    first: Spot,
    end: usize,
    dst: &mut [u8],
    sizes: &mut [usize],
    known: bool,
) -> Spot
    requires { Ready known (notes_all source.side to (row_of x) source.bytes.now first.at end) sizes.old first.slot }
    ensures dst_after { (result.at, result.pos, dst.new) ≡ wrote (moves source.entry.side to (row_of x) source.entry.bytes.now first.at end) dst.old first.pos }
    ensures sizes_after { (result.slot, sizes.new) ≡ puts (notes_all source.entry.side to (row_of x) source.entry.bytes.now first.at end) sizes.old first.slot }
{
    let members = rows::members_of(x);
    let mut here = first;
    for m in &members {
        here = member(source, to, *m, here, end, dst, sizes, known);
    }
    here
}

// A member of a row.
#[cycle(content_held_list_measured_member_noted_row_stored)]
fn member(
    source: Source<'_>,
    to: Side,
    m: Member,
    here: Spot,
    end: usize,
    dst: &mut [u8],
    sizes: &mut [usize],
    known: bool,
) -> Spot
    requires { Ready known (member_notes source.side to m source.bytes.now here.at end) sizes.old here.slot }
    ensures dst_after { (result.at, result.pos, dst.new) ≡ wrote (member_move source.entry.side to m source.entry.bytes.now here.at end) dst.old here.pos }
    ensures sizes_after { (result.slot, sizes.new) ≡ puts (member_notes source.entry.side to m source.entry.bytes.now here.at end) sizes.old here.slot }
{
    match m {
        Member::Blank => here,
        Member::Known(w) => here.past(known_pieces::known(
            source, to, w, here.at, end, dst, here.pos,
        )),
        Member::Leaf(_, primitive) => here.past(pieces::leaf(
            source, to, primitive, here.at, end, dst, here.pos,
        )),
        Member::Part(_, x) => noted(source, to, x, here, end, dst, sizes, known),
        Member::Maybe(_, x) => {
            let h = source.present(structures::tag_of(x), here.at, end);
            let there = h.there;
            let o = fronts::mark(dst, here.pos, to, there);
            let inner = Spot {
                at: h.start,
                pos: o,
                slot: here.slot,
            };
            if there {
                return noted(source, to, x, inner, end, dst, sizes, known);
            }
            inner
        }
        Member::Flag(_) => here.past(flag_pieces::flag(source, to, here.at, end, dst, here.pos)),
        Member::Choice {
            by: _,
            primitive,
            content,
            name: _,
            first,
            second,
        } => {
            let v = pieces::leaf(source, to, primitive, here.at, end, dst, here.pos);
            let after = here.past(v);
            if spans::is_content(source, primitive, content, here.at, end) {
                return noted(source, to, first, after, end, dst, sizes, known);
            }
            noted(source, to, second, after, end, dst, sizes, known)
        }
    }
}

// The items of a list, at most `most`, one after another, and their number.
#[cycle(content_held_list_measured_member_noted_row_stored)]
fn list(
    source: Source<'_>,
    to: Side,
    x: Structure,
    most: usize,
    count: usize,
    first: Spot,
    end: usize,
    dst: &mut [u8],
    sizes: &mut [usize],
    known: bool,
) -> Body
    requires { Ready known (list_notes source.side to (layout_of x) most 0 count source.bytes.now first.at end) sizes.old first.slot }
    ensures dst_after { (result.next.at, result.items, result.next.pos, dst.new) ≡ wrote_body (list_move source.entry.side to (layout_of x) most 0 count source.entry.bytes.now first.at end) dst.old first.pos }
    ensures sizes_after { (result.next.slot, sizes.new) ≡ puts (list_notes source.entry.side to (layout_of x) most 0 count source.entry.bytes.now first.at end) sizes.old first.slot }
{
    let mut here = first;
    for k in 0..most {
        if !source.more(k, count, here.at, end) {
            return Body {
                next: here,
                items: k,
            };
        }
        here = noted(source, to, x, here, end, dst, sizes, known);
    }
    Body {
        next: here,
        items: most,
    }
}
