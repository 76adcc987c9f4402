// A step on the tables: number 20, then look, decide, store, and for a sweep or a crash the sixteen slots.
// `step` and `step_record` are for users. A runner that holds the tables itself uses `places`, `decisions` and `work`.
#![tactic(auto)]

mod whole;

ghost use Rattle.std.specs.Prelude.{◌≡◌};
ghost use Rattle.rules.specs.Machine.{refused_all, step_of};
ghost use Rattle.rules.specs.Record.{step_record_of};

use ranges::in_range;
use rules::outcomes::{Answer, Outcome, Refusal};
use rules::steps::Step;
use rules::tables::Tables;

// Number 20, and the tables as they stood.
fn out_of_range(t: Tables) -> Outcome
    ensures { result ≡ refused_all t }
{
    Outcome {
        answer: Err(Refusal::OutOfRange),
        tables: t,
    }
}

// The answer and the next tables for any tables and any step.
#[tactic(auto, unfolding(rules::specs::Machine::step_of, rules::specs::Answers::first_refusal))]
pub fn step(t: Tables, s: Step) -> Outcome
    ensures { result ≡ step_of t s }
{
    if in_range(t) {
        whole::step_in_range(t, s)
    } else {
        out_of_range(t)
    }
}

// The same for a record of 16 bytes: 20, then 1, then the step that it stands for.
#[tactic(auto, unfolding(rules::specs::Record::step_record_of, rules::specs::Answers::first_refusal))]
pub fn step_record(t: Tables, bytes: [u8; 16]) -> Outcome
    ensures { result ≡ step_record_of t bytes }
{
    if in_range(t) {
        whole::record_in_range(t, bytes)
    } else {
        out_of_range(t)
    }
}
