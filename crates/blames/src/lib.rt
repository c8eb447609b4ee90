// The name of the field that was refused, behind the table of places.
#![tactic(auto)]

ghost use Rattle.std.specs.Prelude.{◌≡◌};
ghost use Rattle.layouts.specs.Marks.{blamed, blaming};

use places::TABLE_SIZE;
use terms::{Field, Refusal};

// Notes the name of a field that is refused, once, where the table has a number more than it needs.
pub fn blame(places: &mut [usize], f: Field)
    ensures { places.new ≡ blamed f places.old }
{
    if places.len() <= TABLE_SIZE {
        return;
    }
    if places[TABLE_SIZE] != 0 {
        return;
    }
    places[TABLE_SIZE] = slots::number_of(f) + 1;
}

// What is answered of a field, and its name noted where that is a refusal.
pub fn blaming<T>(answer: Result<T, Refusal>, f: Field, places: &mut [usize]) -> Result<T, Refusal>
    ensures same { result ≡ answer }
    ensures places_after { places.new ≡ blaming answer f places.old }
{
    if answer.is_err() {
        blame(places, f);
    }
    answer
}
