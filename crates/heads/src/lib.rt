// Where something lies: where it starts, and where it stops.
#![tactic(auto)]

// From a start up to an end.
#[derive(Clone, Copy, PartialEq, Eq, Debug)]
pub struct Span {
    pub start: usize,
    pub end: usize,
}
