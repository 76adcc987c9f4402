// A step on tables by value: the same pieces that a runner uses, put together.
ghost use Rattle.std.specs.Prelude.{◌≤◌, ◌<◌, ◌≡◌, true};
ghost use Rattle.rules.specs.Ranges.{in_range};
ghost use Rattle.rules.specs.StoredLaws.{Placed};
ghost use Rattle.rules.specs.Machine.{look_of, lowest_empty, places_of, slot_seen, seen_of, remains, stored_slot, stored, head_of, turn_of, turns_up_to, step_in_range_of};
ghost use Rattle.rules.specs.Record.{record_in_range_of};
ghost use Rattle.decisions.specs.Turns.{trip_value};

use decisions::decide::decide;
use decisions::turns::{trip_places, turn_answer, turn_count, turn_seen};
use parts::message::{is_empty, no_message};
use places::look::{bank_place, is_message_of, look_of, mail_place, site_place, slot_place};
use records::read_record;
use rules::looking::{Found, Look, Places, Seen, Trip};
use rules::outcomes::{Answer, Outcome, Refusal};
use rules::steps::Step;
use rules::tables::Tables;

// The lowest empty message slot, or 32.
fn lowest_empty(t: &Tables) -> usize
    ensures { result ≡ lowest_empty t.now }
{
    t.messages
        .iter()
        .position(|m| is_empty(m.body))
        .unwrap_or(32)
}

// Where a step with this look sees its records.
#[tactic(auto, unfolding(rules::specs::Machine::places_of))]
fn places_of(t: &Tables, look: Look) -> Places
    ensures { result ≡ places_of t.now look }
{
    let message = mail_place(look.mail, lowest_empty(t));
    let m = t.messages[message];
    let slot = slot_place(look.slot, m);
    let site = site_place(look.site, m, t.passages[slot]);
    Places {
        site,
        slot,
        bank: bank_place(look.site, m, site),
        message,
    }
}

// The records that stand at these places, all but the message: no message is read.
fn see_slot(t: &Tables, at: Places) -> Seen
    requires { Placed at }
    ensures { result ≡ slot_seen t.now at }
{
    let b = 4 * at.bank;
    Seen {
        site: t.sites[at.site],
        passage: t.passages[at.slot],
        visit: t.visits[16 * at.site + at.slot],
        message: no_message(),
        objects: [
            t.objects[b],
            t.objects[b + 1],
            t.objects[b + 2],
            t.objects[b + 3],
        ],
    }
}

// The records that stand at these places.
fn see(t: &Tables, at: Places) -> Seen
    requires { Placed at }
    ensures { result ≡ seen_of t.now at }
{
    Seen {
        message: t.messages[at.message],
        ..see_slot(t, at)
    }
}

// The tables with these records at these places, all but the message: the messages stay.
fn store_slot(mut t: Tables, at: Places, left: Seen) -> Tables
    requires { Placed at }
    ensures { result ≡ stored_slot t at left }
{
    let b = 4 * at.bank;
    t.sites[at.site] = left.site;
    t.passages[at.slot] = left.passage;
    t.visits[16 * at.site + at.slot] = left.visit;
    t.objects[b] = left.objects[0];
    t.objects[b + 1] = left.objects[1];
    t.objects[b + 2] = left.objects[2];
    t.objects[b + 3] = left.objects[3];
    t
}

// The tables with these records at these places.
fn store(t: Tables, at: Places, left: Seen) -> Tables
    requires { Placed at }
    ensures { result ≡ stored t at left }
{
    let mut next = store_slot(t, at, left);
    next.messages[at.message] = left.message;
    next
}

// Whether a visit or a message of the slot remains.
fn remains(t: &Tables, slot: usize) -> bool
    requires { slot < 16 }
    ensures { result ≡ remains t.now slot }
{
    let visit = (0..8).any(|s| t.visits[16 * s + slot].there);
    let message = t.messages.iter().any(|m| is_message_of(slot, *m));
    visit | message
}

// A step's own records; for a sweep or a crash this is the clock.
fn head(t: Tables, step: Step, look: Look) -> Outcome
    requires { (in_range t ≡ true) × (look ≡ look_of step) }
    ensures { result ≡ head_of t step }
{
    let at = places_of(&t, look);
    let found = Found {
        place: at.message,
        remains: remains(&t, at.slot),
    };
    let d = decide(step, found, see(&t, at));
    Outcome {
        answer: d.answer,
        tables: store(t, at, d.left),
    }
}

// One slot of a sweep or a crash. No message is read or stored.
fn turn(trip: Trip, slot: usize, o: Outcome) -> Outcome
    requires { (slot < 16) × (trip_value trip o.answer ≤ slot) }
    ensures { result ≡ turn_of trip slot o }
{
    let at = trip_places(trip, slot);
    let seen = see_slot(&o.tables, at);
    let left = turn_seen(trip, slot, seen);
    Outcome {
        answer: turn_answer(trip, o.answer, seen),
        tables: store_slot(o.tables, at, left),
    }
}

// The slots of a trip, one after the other.
fn turns(trip: Trip, o: Outcome, n: usize) -> Outcome
    requires { (n ≤ 16) × (trip_value trip o.answer ≡ 0) }
    ensures { result ≡ turns_up_to trip o n }
{
    let mut done = o;
    for slot in 0..n {
        done = turn(trip, slot, done);
    }
    done
}

// A step on tables that are in range.
pub(crate) fn step_in_range(t: Tables, step: Step) -> Outcome
    requires { in_range t ≡ true }
    ensures { result ≡ step_in_range_of t step }
{
    let look = look_of(step);
    let o = head(t, step, look);
    turns(look.trip, o, turn_count(look.trip, o.answer))
}

// A record on tables that are in range: a record that stands for no step is refused by 1.
#[tactic(auto, unfolding(rules::specs::Record::record_in_range_of))]
pub(crate) fn record_in_range(t: Tables, bytes: [u8; 16]) -> Outcome
    requires { in_range t ≡ true }
    ensures { result ≡ record_in_range_of t bytes }
{
    match read_record(bytes) {
        None => Outcome {
            answer: Err(Refusal::NoStep),
            tables: t,
        },
        Some(step) => step_in_range(t, step),
    }
}
