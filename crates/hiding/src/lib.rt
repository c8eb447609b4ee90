// The primitive items of the rules by name: how many bytes of each stand before its value, and which are numbers of a sheet.
#![tactic(auto)]

ghost use Rattle.std.specs.Prelude.{◌≡◌, ◌≤◌, length};
ghost use Rattle.primitives.specs.Primitive.{leaf_of, is_number};

use primitives::Primitive;

// How many bytes of a primitive item's content stand before its value: the first of a bit string.
pub fn hidden_of(p: Primitive) -> usize
    ensures { (result ≡ length (leaf_of p).front) × (result ≤ 1) }
{
    match p {
        Primitive::Bits => 1,
        _ => 0,
    }
}

// Whether a primitive item is an integer of many, whose section in a sheet has eight bytes.
pub fn is_number(p: Primitive) -> bool
    ensures { result ≡ is_number (leaf_of p).holds }
{
    matches!(
        p,
        Primitive::Integer | Primitive::ListKind | Primitive::Millimetres
    )
}
