// A primitive item, from a source to a destination.
#![tactic(auto)]

ghost use Rattle.std.specs.Prelude.{◌≡◌, ◌≤◌, replicate};
ghost use Rattle.contents.specs.Integer.{sign_of};
ghost use Rattle.primitives.specs.Primitive.{leaf_of};
ghost use Rattle.sides.specs.Move.{leaf_out, move_leaf};
ghost use Rattle.stores.specs.Store.{puts};
ghost use Rattle.pieces.specs.Piece.{padding, wrote};

use primitives::Primitive;
use sides::Side;
use sources::Source;

// How many bytes the section of an integer has.
const INTEGER_BYTES: usize = 8;

// Where what follows starts in the source, and in the destination.
#[derive(Clone, Copy)]
pub struct Moved {
    pub next: usize,
    pub to: usize,
}

// One byte, so many times.
#[derive(Clone, Copy)]
struct Padding {
    byte: u8,
    times: usize,
}

// The byte that may stand before a number without changing it.
fn sign_of(w: &[u8]) -> u8
    ensures { result ≡ sign_of w.now }
{
    match w {
        [128..=255, ..] => 255,
        _ => 0,
    }
}

// What stands before a value in its content or its section: the 00 of a bit string, the sign of an integer.
fn padding_of(to: Side, p: Primitive, w: &[u8]) -> Padding
    ensures { (replicate result.times result.byte ≡ padding to (leaf_of p) w.now) × (result.times ≤ 8) }
{
    match to {
        Side::Record => Padding {
            byte: 0,
            times: hiding::hidden_of(p),
        },
        Side::Sheet if hiding::is_number(p) => Padding {
            byte: sign_of(w),
            times: INTEGER_BYTES.saturating_sub(w.len()),
        },
        Side::Sheet => Padding { byte: 0, times: 0 },
    }
}

// A value as a primitive item or a section.
pub fn value(dst: &mut [u8], pos: usize, to: Side, p: Primitive, w: &[u8]) -> usize
    ensures { (result, dst.new) ≡ puts (leaf_out to (leaf_of p) w.now) dst.old pos }
{
    let b = padding_of(to, p, w);
    let n = b.times + w.len();
    let o = fronts::front(dst, pos, to, primitives::tag_of(p), true, n, n);
    let q = stores::repeated(dst, o, b.byte, b.times);
    copies::copied(dst, q, w)
}

// A primitive item from a source.
// Kept: a struct of the lent destination and its position would be taken apart and built anew at each call.
pub fn leaf(
    source: Source<'_>,
    to: Side,
    p: Primitive,
    at: usize,
    end: usize,
    dst: &mut [u8],
    pos: usize,
) -> Moved
    ensures { (result.next, result.to, dst.new) ≡ wrote (move_leaf source.entry.side to (leaf_of p) source.entry.bytes.now at end) dst.old pos }
{
    let v = spans::value(source, p, at, end);
    let o = value(
        dst,
        pos,
        to,
        p,
        windows::window(source.bytes, v.start, v.end),
    );
    Moved { next: v.end, to: o }
}
