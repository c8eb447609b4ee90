// A name's numbers in the table of places: where they start.
#![tactic(auto)]

ghost use Rattle.std.specs.Prelude.{◌≡◌, ◌<◌};
ghost use Rattle.layouts.specs.Places.{table_size, slot};
ghost use Rattle.terms.specs.Names.{names_count, name_of};

use terms::Field;

// The numbers under a name.
pub const NUMBERS_EACH: usize = 4;

// A name's number.
pub fn number_of(f: Field) -> usize
    ensures { (f ≡ name_of result) × (result < names_count) }
{
    f as usize
}

// Where a name's four numbers start.
pub fn slot_of(f: Field) -> usize
    ensures { (result ≡ slot f) × (result < table_size) }
{
    NUMBERS_EACH * number_of(f)
}
