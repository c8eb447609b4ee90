// The lines of a screen by their fields.
#![tactic(auto)]

ghost use Rattle.std.specs.Prelude.{◌≡◌, ◌<◌};
ghost use Rattle.terms.specs.Names.{names_count};
ghost use Rattle.screen_rows.specs.Screen.{name_on};

use terms::Field;

// The line that a field stands on: the signed part and the seal first, then the seal's fields, which the names begin with, then the others.
pub fn line_of(f: Field) -> usize
    ensures { (f ≡ name_on result) × (result < names_count) }
{
    match f {
        Field::SignedPart => 0,
        Field::Seal => 1,
        _ if (f as usize) < Field::SignedPart as usize => f as usize + 2,
        _ => f as usize,
    }
}
