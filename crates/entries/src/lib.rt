// A primitive item that is read and noted, also where it is refused.
#![tactic(auto)]

ghost use Rattle.std.specs.Prelude.{◌≡◌};
ghost use Rattle.primitives.specs.Primitive.{leaf_of};
ghost use Rattle.entries.specs.Entry.{leaf_walk};

use heads::Span;
use primitives::Primitive;
use terms::{Field, Refusal};

// A primitive item under its name, and its index in a list: where its value lies, or its refusal.
// Kept: a struct of the record and the lent table would be taken apart and built anew at each call.
pub fn leaf(
    s: &[u8],
    primitive: Primitive,
    name: Field,
    index: usize,
    at: usize,
    end: usize,
    places: &mut [usize],
) -> Result<Span, Refusal>
    ensures { (result, places.new) ≡ leaf_walk (leaf_of primitive) name index s.now at end places.old }
{
    let value = blames::blaming(leaves::leaf(s, primitive, at, end), name, places)?;
    places::note(places, name, index, value.start, value.end, 0);
    Ok(value)
}
