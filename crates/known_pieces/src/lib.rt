// A known member, from a source to a destination.
#![tactic(auto)]

ghost use Rattle.std.specs.Prelude.{◌≡◌};
ghost use Rattle.primitives.specs.Primitive.{known_of};
ghost use Rattle.sides.specs.Move.{known_out, move_known};
ghost use Rattle.stores.specs.Store.{puts};
ghost use Rattle.pieces.specs.Piece.{wrote};

use pieces::Moved;
use primitives::{Primitive, Word};
use sides::Side;
use sources::Source;

// A known member, which a sheet has not.
fn known_out(dst: &mut [u8], pos: usize, to: Side, w: Word) -> usize
    ensures { (result, dst.new) ≡ puts (known_out to (known_of w)) dst.old pos }
{
    match (to, w) {
        (Side::Record, Word::HeaderName) => pieces::value(
            dst,
            pos,
            to,
            Primitive::HeaderName,
            b"ES",
        ),
        (Side::Record, Word::Version) => pieces::value(dst, pos, to, Primitive::Version, b"\x04"),
        (Side::Sheet, _) => pos,
    }
}

// A known member from a source.
// Kept: a struct of the lent destination and its position would be taken apart and built anew at each call.
pub fn known(
    source: Source<'_>,
    to: Side,
    w: Word,
    at: usize,
    end: usize,
    dst: &mut [u8],
    pos: usize,
) -> Moved
    ensures { (result.next, result.to, dst.new) ≡ wrote (move_known source.entry.side to (known_of w) source.entry.bytes.now at end) dst.old pos }
{
    let n = spans::known(source, w, at, end);
    let o = known_out(dst, pos, to, w);
    Moved { next: n, to: o }
}
