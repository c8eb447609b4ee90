// What a run comes to, step by step and as a whole.
#![tactic(auto)]

use records::Part;
use terms::Refusal;

// Why a run stops before its end: the refusal, and how many records stand before it.
#[derive(Clone, Copy, PartialEq, Eq, Debug)]
pub struct Stopped {
    pub refusal: Refusal,
    pub before: u64,
}

// What a step comes to: the position and the number of records handed out after it; and where the record lies that it hands out, none at the
// end.
#[derive(Clone, Copy, PartialEq, Eq, Debug)]
pub struct Moved {
    pub position: usize,
    pub handed: u64,
    pub answer: Result<Option<Part>, Stopped>,
}
