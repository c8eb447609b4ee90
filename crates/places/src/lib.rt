// The table of places: under each name whether the field is there, where it starts, how many bytes it has, and of a list how many items;
// after them the index of the item that is wanted of a list. A table that has a number more holds there the name of the field that was refused.
#![tactic(auto)]

ghost use Rattle.std.specs.Prelude.{◌≡◌, ◌+◌, ◌-◌, ◌<◌, ◌&&◌, length as size, eqb};
ghost use Rattle.layouts.specs.Places.{table_size, wanted};
ghost use Rattle.layouts.proofs.Laws.Places.{blank as blankTable};
ghost use Rattle.layouts.specs.Marks.{free, filled, noted};

use slots::NUMBERS_EACH;
use terms::{Field, NAMES};

// Where the index that is wanted stands, behind the numbers under the names.
pub const WANTED_AT: usize = NUMBERS_EACH * NAMES;

// The numbers of a table.
pub const TABLE_SIZE: usize = WANTED_AT + 1;

// Whether a name's four numbers, from a number on, are in the table and not taken.
// Kept: `n` is what `slots` answers; a type of its own would stand in each clause as that number.
#[tactic(auto, unfolding(layouts::specs::Marks::free))]
fn is_free(places: &[usize], n: usize) -> bool
    requires { n < table_size }
    ensures { result ≡ free places.now n }
{
    n + 3 < places.len() && places[n] == 0
}

// Writes a name's four numbers.
fn fill(places: &mut [usize], n: usize, start: usize, length: usize, items: usize)
    requires n_lt_table_size { n < table_size }
    requires n_bound { (n + 1 < size places.old) × (n + 2 < size places.old) × (n + 3 < size places.old) }
    ensures { places.new ≡ filled places.old n start length items }
{
    places[n] = 1;
    places[n + 1] = start;
    places[n + 2] = length;
    places[n + 3] = items;
}

// A table in which nothing is noted yet.
pub fn blank(index: usize) -> [usize; TABLE_SIZE]
    ensures { result ≡ blankTable index }
{
    let mut places = [0usize; TABLE_SIZE];
    places[WANTED_AT] = index;
    places
}

// Whether a field of an index is to be noted in four numbers: they are free, and it is wanted.
#[tactic(auto, unfolding(layouts::specs::Places::wanted))]
fn takes(places: &[usize], n: usize, index: usize) -> bool
    requires { n < table_size }
    ensures { result ≡ eqb index (wanted places.now) && free places.now n }
{
    is_free(places, n) && index == lookups::number_at(places, WANTED_AT)
}

// Notes a field under its name, once, if its index is wanted and the table has room for it.
pub fn note(places: &mut [usize], f: Field, index: usize, start: usize, end: usize, items: usize)
    ensures { places.new ≡ noted f index start end items places.old }
{
    let n = slots::slot_of(f);
    if takes(places, n, index) {
        fill(places, n, start, end.saturating_sub(start), items);
    }
}
