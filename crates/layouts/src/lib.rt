// A layout as data, of which code shares one enum.
#![tactic(auto)]

use terms::Field;

// Whose fault a refusal is: nothing's where there is none, the record's, or a field's.
// Kept: three answers by their names, which an `Option<Option<Field>>` would not have.
#[derive(Clone, Copy, PartialEq, Eq, Debug)]
pub enum Whose {
    Nothing,
    Record,
    Field(Field),
}
