// The forms in which values stand: a record or a sheet.
#![tactic(auto)]

#[derive(Clone, Copy, PartialEq, Eq, Debug)]
pub enum Side {
    Record,
    Sheet,
}
