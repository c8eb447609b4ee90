// The two records, and where a part of one lies.
#![tactic(auto)]

// The two records.
#[derive(Clone, Copy, PartialEq, Eq, Debug)]
pub enum Record {
    Seal,
    Signature,
}

// Where a field, a matching entry or a record lies in what was lent.
#[derive(Clone, Copy, PartialEq, Eq, Debug)]
pub struct Part {
    pub start: usize,
    pub length: usize,
}
