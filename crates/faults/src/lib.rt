// What a refusal is about: reading a seal or a signature record, with the field that the first fault was found in and the fields before it.
#![tactic(auto)]

ghost use Rattle.std.specs.Prelude.{◌≡◌, ◌<◌, length, take};
ghost use Rattle.terms.specs.Names.{name_of};
ghost use Rattle.terms.specs.Numbers.{largest_record};
ghost use Rattle.layouts.specs.Places.{table_size, Placed};
ghost use Rattle.layouts.specs.Whole.{told_outcome};
ghost use Rattle.layouts.specs.About.{record_about};
ghost use Rattle.layouts.specs.Passed.{record_passed};
ghost use Rattle.layouts.proofs.Laws.About.{whose_by};
ghost use Rattle.layouts.specs.declared.Whose.TheVariants.{Record as TheRecord};
ghost use Rattle.records.specs.Handing.{layout_of, record_answer};
ghost use Rattle.faults.specs.Laws.{room_for};

use layouts::Whose;
use places::{TABLE_SIZE, WANTED_AT};
use records::Record;
use terms::{Field, LARGEST_RECORD, NAMES, Refusal};

// A table of places, and behind it a number more.
const ROOM: usize = TABLE_SIZE + 1;

// What reading a record comes to; whose fault its refusal is; and the table of the places that were passed, all of them where it was accepted.
// Kept: with a refusal there is a table too.
#[derive(Clone, Copy)]
pub struct Fault {
    pub outcome: Result<usize, Refusal>,
    pub whose: Whose,
    pub places: [usize; TABLE_SIZE],
}

// A table in which nothing is noted yet, nor behind it.
fn room(index: usize) -> [usize; ROOM]
    ensures { result ≡ room_for index }
{
    let mut places = [0usize; ROOM];
    places[WANTED_AT] = index;
    places
}

// The table alone.
fn table(places: &[usize]) -> [usize; TABLE_SIZE]
    requires { table_size < length places.now }
    ensures { result ≡ take table_size places.now }
{
    let mut alone = [0usize; TABLE_SIZE];
    alone.copy_from_slice(&places[..TABLE_SIZE]);
    alone
}

// The name of a number; past the last one, the first.
fn name_of(n: usize) -> Field
    ensures { result ≡ name_of n }
{
    if n < NAMES {
        return names::name_of(n as u8);
    }
    Field::SealInformation
}

// Whose fault a refusal is, by the number behind the table: the record's where no name is noted.
fn whose(n: usize) -> Whose
    ensures { result ≡ whose_by TheRecord n }
{
    if n == 0 {
        return Whose::Record;
    }
    Whose::Field(name_of(n - 1))
}

// A record, whose fault its refusal is, and where the fields stand that were passed: of those in a list, the one of an index.
pub fn read(s: &[u8], x: Record, index: usize) -> Fault
    ensures outcome_value { told_outcome result.outcome ≡ record_answer (layout_of x) s.now }
    ensures whose_value { result.whose ≡ record_about largest_record (layout_of x) s.now }
    ensures placed { Placed index (record_passed largest_record (layout_of x) s.now) result.places }
{
    let mut places = room(index);
    let outcome = readers::whole(s, structures::row_of(x), LARGEST_RECORD, &mut places);
    if outcome.is_err() {
        return Fault {
            outcome,
            whose: whose(places[TABLE_SIZE]),
            places: table(&places),
        };
    }
    Fault {
        outcome,
        whose: Whose::Nothing,
        places: table(&places),
    }
}
