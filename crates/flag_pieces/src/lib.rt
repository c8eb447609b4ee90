// A flag, from a source to a destination.
#![tactic(auto)]

ghost use Rattle.std.specs.Prelude.{◌≡◌};
ghost use Rattle.sides.specs.Move.{flag_out, move_flag};
ghost use Rattle.stores.specs.Store.{puts};
ghost use Rattle.pieces.specs.Piece.{wrote};

use pieces::Moved;
use primitives::Primitive;
use sides::Side;
use sources::Source;

// A flag.
fn flag_out(dst: &mut [u8], pos: usize, to: Side, v: bool) -> usize
    ensures { (result, dst.new) ≡ puts (flag_out to v) dst.old pos }
{
    match (to, v) {
        (Side::Record, true) => pieces::value(dst, pos, to, Primitive::Critical, b"\xff"),
        (Side::Record, false) => pos,
        (Side::Sheet, true) => pieces::value(dst, pos, to, Primitive::Critical, b"\x01"),
        (Side::Sheet, false) => pieces::value(dst, pos, to, Primitive::Critical, b"\x00"),
    }
}

// A flag from a source.
pub fn flag(
    source: Source<'_>,
    to: Side,
    at: usize,
    end: usize,
    dst: &mut [u8],
    pos: usize,
) -> Moved
    ensures { (result.next, result.to, dst.new) ≡ wrote (move_flag source.entry.side to source.entry.bytes.now at end) dst.old pos }
{
    let v = spans::flag(source, at, end);
    let o = flag_out(dst, pos, to, v.there);
    Moved {
        next: v.start,
        to: o,
    }
}
