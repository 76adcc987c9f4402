// The sixteen slots of a sweep and of a crash.
ghost use Rattle.std.specs.Prelude.{◌+◌, ◌≤◌, ◌<◌, ◌≡◌};
ghost use Rattle.rules.specs.Loops.{one_if};
ghost use Rattle.rules.specs.Answers.{answer_value};
ghost use Rattle.rules.specs.Machine.{slot_places, trip_places, turn_seen, count_one, turn_answer, turn_count};
ghost use Rattle.decisions.specs.Turns.{trip_value};

use outages::crashed_slot;
use rules::looking::{Places, Seen, Trip};
use rules::outcomes::Answer;
use stations::{is_swept, swept_slot};

fn counted(v: u64, b: bool) -> u64
    requires { v ≤ 1000 }
    ensures { result ≡ v + one_if b }
{
    v + u64::from(b)
}

// One visit more is counted where b says so.
fn count_one(answer: Answer, b: bool) -> Answer
    requires { answer_value answer ≤ 1000 }
    ensures { result ≡ count_one answer b }
{
    answer.map(|v| counted(v, b))
}

// Where the turn of a trip at this slot looks.
pub fn trip_places(trip: Trip, slot: usize) -> Places
    requires { slot < 16 }
    ensures { result ≡ trip_places trip slot }
{
    match trip {
        Trip::Nowhere => slot_places(0, slot),
        Trip::Sweep(site) | Trip::Crash(site) => slot_places(site, slot),
    }
}

fn slot_places(site: u8, slot: usize) -> Places
    ensures { result ≡ slot_places site slot }
{
    let site = usize::from(site % 8);
    Places {
        site,
        slot,
        bank: site,
        message: 0,
    }
}

// What the turn leaves of what it saw.
pub fn turn_seen(trip: Trip, slot: usize, seen: Seen) -> Seen
    requires { slot < 16 }
    ensures { result ≡ turn_seen trip slot seen }
{
    match trip {
        Trip::Nowhere => seen,
        Trip::Sweep(site) => swept_slot(site, slot as u8, seen),
        Trip::Crash(site) => crashed_slot(site, slot as u8, seen),
    }
}

// The answer after the turn: a sweep counts the visit that it removed.
pub fn turn_answer(trip: Trip, answer: Answer, seen: Seen) -> Answer
    requires { trip_value trip answer ≤ 1000 }
    ensures { result ≡ turn_answer trip answer seen }
{
    match trip {
        Trip::Sweep(_) => count_one(answer, is_swept(seen)),
        Trip::Nowhere | Trip::Crash(_) => answer,
    }
}

fn sixteen_if_accepted(answer: Answer) -> usize
    ensures { result ≡ turn_count (Trip.Sweep 0) answer }
{
    match answer {
        Ok(_) => 16,
        Err(_) => 0,
    }
}

// How many slots are gone through once the head has this answer.
pub fn turn_count(trip: Trip, answer: Answer) -> usize
    ensures { result ≡ turn_count trip answer }
{
    match trip {
        Trip::Nowhere => 0,
        Trip::Sweep(_) | Trip::Crash(_) => sixteen_if_accepted(answer),
    }
}
