// Of the lists in a table of places: how many items one has, and whether an item is critical.
#![tactic(auto)]

ghost use Rattle.std.specs.Prelude.{◌≡◌, Ok};
ghost use Rattle.tallies.specs.Tally.{is_under, critical_under, count_under};

use terms::Field;

// Whether a table of places has a field.
#[tactic(auto, unfolding(crate::specs::Tally::is_under))]
fn is_under(places: &[usize], f: Field) -> bool
    ensures { result ≡ is_under f places.now }
{
    lookups::under(places, f).there
}

// Whether an item that is there is critical: where the flag is left out it is not.
#[tactic(auto, unfolding(crate::specs::Tally::critical_under, terms::specs::Answer::pick))]
pub fn critical_under(places: &[usize], item: Field, flag: Field) -> Option<bool>
    ensures { Ok result ≡ critical_under item flag places.now }
{
    is_under(places, item).then_some(is_under(places, flag))
}

// How many items a list has that a table of places has.
#[tactic(auto, unfolding(crate::specs::Tally::count_under, crate::specs::Tally::is_under, layouts::specs::Places::under, terms::specs::Answer::pick))]
pub fn count_under(places: &[usize], f: Field) -> Option<usize>
    ensures { Ok result ≡ count_under f places.now }
{
    let place = lookups::under(places, f);
    place.there.then_some(place.items)
}
