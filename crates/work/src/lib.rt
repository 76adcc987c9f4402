// A record's work for a runner that holds the tables itself, turn by turn.
// The first turn is the step's own; for a sweep or a crash turn k + 1 is that of slot k.
// Every turn looks, decides and stores in the same way, but that only the first reads a message and stores one.
#![tactic(auto)]

ghost use Rattle.std.specs.Prelude.{◌≤◌, ◌<◌, ◌≡◌};
ghost use Rattle.rules.specs.Sane.{Sane};
ghost use Rattle.rules.specs.Machine.{trip_site};
ghost use Rattle.decisions.specs.Turns.{trip_value};
ghost use Rattle.work.specs.Work.{reading_look, slot_look, turn_look, step_scan, scan_count, reading_done, slot_done, turn_done};

use decisions::decide::decide;
use decisions::turns::{turn_answer, turn_seen};
use places::look::{look_of, looks_both, looks_site};
use rules::looking::{Found, Look, MailAt, Seen, Trip};
use rules::outcomes::{Answer, Decision, Refusal};
use rules::steps::Step;

// Where the first turn looks. A record that stands for no step looks at site 0, and leaves what it sees.
pub fn reading_look(reading: Option<Step>) -> Look
    ensures { result ≡ reading_look reading }
{
    match reading {
        None => looks_site(0, Trip::Nowhere),
        Some(step) => look_of(step),
    }
}

fn trip_site(trip: Trip) -> u8
    ensures { result ≡ trip_site trip }
{
    match trip {
        Trip::Nowhere => 0,
        Trip::Sweep(site) | Trip::Crash(site) => site,
    }
}

// Where the turn of a slot looks.
fn slot_look(trip: Trip, slot: usize) -> Look
    requires { slot < 16 }
    ensures { result ≡ slot_look trip slot }
{
    looks_both(MailAt::Nowhere, slot as u16, trip_site(trip))
}

// Where a turn looks, if the first one looks so.
pub fn turn_look(look: Look, turn: usize) -> Look
    requires { turn ≤ 16 }
    ensures { result ≡ turn_look look turn }
{
    if turn == 0 {
        look
    } else {
        slot_look(look.trip, turn - 1)
    }
}

// How many message slots a step has looked over before its first turn.
// Invoke, ask and tell need the lowest empty one, and a retire asks what remains; no other step uses what is found.
fn step_scan(step: Step) -> usize
    ensures { result ≡ step_scan step }
{
    match step {
        Step::Invoke { .. } | Step::Ask { .. } | Step::Tell { .. } | Step::Retire { .. } => 32,
        Step::Tick { .. }
        | Step::Begin { .. }
        | Step::Refresh { .. }
        | Step::Terminate { .. }
        | Step::Prepare { .. }
        | Step::Close { .. }
        | Step::Abort { .. }
        | Step::Deliver { .. }
        | Step::Drop { .. }
        | Step::Sweep { .. }
        | Step::Crash { .. }
        | Step::Recover { .. } => 0,
    }
}

// How many message slots are looked over before a record's work.
pub fn scan_count(reading: Option<Step>) -> usize
    ensures { result ≡ scan_count reading }
{
    reading.map_or(0, step_scan)
}

// What a record decides in its first turn.
fn decide_reading(reading: Option<Step>, found: Found, seen: Seen) -> Decision
    requires { Sane seen }
    ensures { result ≡ reading_done reading found seen }
{
    match reading {
        None => Decision {
            answer: Err(Refusal::NoStep),
            left: seen,
        },
        Some(step) => decide(step, found, seen),
    }
}

// What the turn of a slot decides, after this answer.
fn decide_slot(trip: Trip, slot: usize, before: Answer, seen: Seen) -> Decision
    requires { (slot < 16) × (trip_value trip before ≤ 1000) }
    ensures { result ≡ slot_done trip slot before seen }
{
    Decision {
        answer: turn_answer(trip, before, seen),
        left: turn_seen(trip, slot, seen),
    }
}

// What a turn decides.
pub fn decide_turn(
    reading: Option<Step>,
    trip: Trip,
    turn: usize,
    found: Found,
    before: Answer,
    seen: Seen,
) -> Decision
    requires { (turn ≡ 0 → Sane seen) × (turn ≤ 16) × (trip_value trip before ≤ turn) }
    ensures { result ≡ turn_done reading trip turn found before seen }
{
    if turn == 0 {
        decide_reading(reading, found, seen)
    } else {
        decide_slot(trip, turn - 1, before, seen)
    }
}
