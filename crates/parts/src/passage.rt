// What is asked and changed of one passage.
ghost use Rattle.std.specs.Prelude.{◌≡◌};
ghost use Rattle.rules.specs.Tables.{free_slot};
ghost use Rattle.rules.specs.Parts.{is_free, is_active, is_running, is_aborted, is_over, with_status, with_round, aborted_passage};

use crate::round::{no_round, with_phase};
use rules::tables::{Passage, Phase, Round, Status};

pub fn is_free(s: Status) -> bool
    ensures { result ≡ is_free s }
{
    s == Status::Free
}

pub fn is_active(s: Status) -> bool
    ensures { result ≡ is_active s }
{
    s == Status::Active
}

// Active or committing.
pub fn is_running(s: Status) -> bool
    ensures { result ≡ is_running s }
{
    matches!(s, Status::Active | Status::Committing)
}

pub fn is_aborted(s: Status) -> bool
    ensures { result ≡ is_aborted s }
{
    s == Status::Aborted
}

// Aborted or committed.
pub fn is_over(s: Status) -> bool
    ensures { result ≡ is_over s }
{
    matches!(s, Status::Aborted | Status::Committed)
}

// A slot that no passage uses, in this generation.
pub fn free_slot(generation: u8) -> Passage
    ensures { result ≡ free_slot generation }
{
    Passage {
        status: Status::Free,
        home: 0,
        round: no_round(),
        generation,
    }
}

pub fn with_status(p: Passage, status: Status) -> Passage
    ensures { result ≡ with_status p status }
{
    Passage { status, ..p }
}

pub fn with_round(p: Passage, round: Round) -> Passage
    ensures { result ≡ with_round p round }
{
    Passage { round, ..p }
}

// Status aborted, round phase none.
pub fn aborted_passage(p: Passage) -> Passage
    ensures { result ≡ aborted_passage p }
{
    Passage {
        status: Status::Aborted,
        round: with_phase(p.round, Phase::None),
        ..p
    }
}
