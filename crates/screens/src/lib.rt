// The lines of a screen: the fields of a signature record in the order of the record, each with what a table of places has under its name.
#![tactic(auto)]

ghost use Rattle.std.specs.Prelude.{◌≡◌, not, [], ◌∷◌, get_or, drop, length as size, eqb};
ghost use Rattle.layouts.specs.Places.{slot, under as numbersUnder};
ghost use Rattle.records.specs.Part.{PartOf};
ghost use Rattle.cuts.specs.Handed.{part_under, span_of, within};
ghost use Rattle.screen_rows.specs.Screen.{row_on, name_on};
ghost use Rattle.screens.specs.Screen.{row_in};

use screen_rows::Shows;
use terms::Field;

// A line of a record: its row, and what stands under its name.
// Kept: the flag and the numbers each stand in the table, and `shown` says all four of any table (clauses `there_value`, `result_value_2`).
#[derive(Clone, Copy)]
pub struct Line {
    pub name: Field,
    pub depth: usize,
    pub shows: Shows,
    pub there: bool,
    pub start: usize,
    pub length: usize,
    pub items: usize,
}

// What stands on a line, by a table of places.
pub fn shown(places: &[usize], line: usize) -> Line
    ensures result_value { row_in result ≡ row_on line }
    ensures there_value { result.there ≡ not (eqb (get_or places.now (slot (name_on line)) 0) 0) }
    ensures result_value_2 { result.start ∷ result.length ∷ result.items ∷ [] ≡ drop 1 (numbersUnder (name_on line) places.now) }
{
    let x = screen_rows::row_on(line);
    let name = x.0;
    let shows = x.2;
    let place = lookups::under(places, name);
    Line {
        name,
        depth: x.1,
        shows,
        there: place.there,
        start: place.start,
        length: place.length,
        items: place.items,
    }
}

// The part of a record that stands on a line, by a table of places; where none does, no bytes, at the record's start.
pub fn part_on<'a, 'b>(s: &'a [u8], places: &'b [usize], line: usize) -> &'a [u8]
    ensures { PartOf s.entry result (within (size s.now) (span_of (part_under (name_on line) places.now))) }
{
    let x = screen_rows::row_on(line);
    let name = x.0;
    cuts::cut_under(s, places, name)
}
