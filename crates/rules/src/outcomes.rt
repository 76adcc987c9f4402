// Refusals and answers, what a step decides, and what it gives.
use crate::looking::Seen;
use crate::tables::Tables;

// The refusals in the order in which documents 01 and 02 list them, with their numbers, as specs/Answers.antt has them.
#[derive(Clone, Copy)]
pub enum Refusal {
    OutOfRange = 20,
    NoStep = 1,
    BadField = 2,
    NotThere = 3,
    SiteDown = 4,
    WrongState = 5,
    NoVisit = 6,
    ClockFull = 7,
    Quiesced = 8,
    WrongRound = 9,
    Held = 10,
    Full = 11,
    NotClosed = 12,
    NoCallLeft = 13,
    NoRoundLeft = 14,
}

// An accepted step answers a value.
pub type Answer = Result<u64, Refusal>;

// What a step decides from what it saw: its answer, and the records that it leaves.
#[derive(Clone, Copy)]
pub struct Decision {
    pub answer: Answer,
    pub left: Seen,
}

// What a step on the tables gives: its answer, and the tables that it leaves.
#[derive(Clone, Copy)]
pub struct Outcome {
    pub answer: Answer,
    pub tables: Tables,
}
