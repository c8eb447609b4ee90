// What stands under a name in a table of places.
#![tactic(auto)]

ghost use Rattle.std.specs.Prelude.{◌≡◌, not, [], ◌∷◌, get_or, drop, eqb};
ghost use Rattle.layouts.specs.Places.{slot, under as numbersUnder};

use terms::Field;

// What stands under a name.
// Kept: the flag and the numbers each stand in the table, and `under` says all four of any table (clauses `there_value`, `result_value`).
#[derive(Clone, Copy)]
pub struct Place {
    pub there: bool,
    pub start: usize,
    pub length: usize,
    pub items: usize,
}

// A number of a table; past its end they are zeros.
pub fn number_at(places: &[usize], n: usize) -> usize
    ensures { result ≡ get_or places.now n 0 }
{
    places.get(n).copied().unwrap_or(0)
}

// What stands under a name.
#[tactic(auto, unfolding(layouts::specs::Places::under))]
pub fn under(places: &[usize], f: Field) -> Place
    ensures there_value { result.there ≡ not (eqb (get_or places.now (slot f) 0) 0) }
    ensures result_value { result.start ∷ result.length ∷ result.items ∷ [] ≡ drop 1 (numbersUnder f places.now) }
{
    let n = slots::slot_of(f);
    Place {
        there: number_at(places, n) != 0,
        start: number_at(places, n + 1),
        length: number_at(places, n + 2),
        items: number_at(places, n + 3),
    }
}
