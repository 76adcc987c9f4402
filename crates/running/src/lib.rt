// The machine at work: the records of a part, one after the other, from the start.
// Who wants a listing, or words, or figures, takes the answers from here and knows nothing of the tables.
// Who wants the tables that a part leaves takes them from here too.
#![tactic(auto)]

ghost use Rattle.std.specs.Prelude.{◌*◌, ◌/◌, ◌≤◌, ◌<◌, ◌≡◌, length, true};
ghost use Rattle.decisions.specs.Turns.{trip_value};
ghost use Rattle.rules.specs.Machine.{lowest_empty, places_for, remains, slot_place, slot_seen};
ghost use Rattle.rules.specs.Ranges.{in_range};
ghost use Rattle.rules.specs.Record.{record_in_range_of};
ghost use Rattle.rules.specs.Runs.{run_records_of};
ghost use Rattle.rules.specs.Sheet.{records_up_to};
ghost use Rattle.rules.specs.Seen.{left_message};
ghost use Rattle.rules.specs.StoredLaws.{Placed};
ghost use Rattle.rules.specs.Tables.{passage_at, start};
ghost use Rattle.running.specs.Answered.{Ran};
ghost use Rattle.running.specs.Turn.{left_with, turn_made};
ghost use Rattle.work.specs.Work.{reading_look, turn_message, turn_stored};

use decisions::turns::turn_count;
use parts::message::no_message;
use places::look::{bank_place, first_next, mail_place, rest_next, site_place, slot_place};
use records::read_record;
use rules::looking::{Found, Look, Places, Seen};
use rules::outcomes::{Answer, Refusal};
use rules::steps::Step;
use rules::tables::{Message, Tables};
use sheet::record_at;
use start::start;
use work::{decide_turn, reading_look, scan_count, turn_look};

// What one pass over the messages finds: the lowest empty message slot, and whether anything remains of a passage slot.
#[derive(Clone, Copy)]
struct Pass {
    empty: usize,
    remains: bool,
}

// What is known of a record before its first turn: the step that it stands for, where that looks, and what the pass found.
#[derive(Clone, Copy)]
struct Task {
    reading: Option<Step>,
    first: Look,
    pass: Pass,
}

// One pass over the first n messages, with the visits of a slot beside them.
// For the steps that ask it goes over all: a new message for the lowest empty slot, a retire for what remains.
// For the others it goes over none, and what it finds does not matter.
fn look_over(t: &Tables, slot: usize, n: usize) -> Pass
    requires { (slot < 16) × (n ≤ 32) }
    ensures { (n ≡ 32 → result.empty ≡ lowest_empty t.now) × (n ≡ 32 → result.remains ≡ remains t.now slot) }
{
    let mut empty = 0;
    let mut remains = false;
    for k in 0..n {
        let message = t.messages[k];
        remains = rest_next(remains, slot, message, t.visits[16 * (k % 8) + slot]);
        empty = first_next(empty, k, message);
    }
    Pass { empty, remains }
}

// The message that a turn sees: only the first turn reads one.
fn message_for(t: &Tables, turn: usize, place: usize) -> Message
    requires { place < 32 }
    ensures { result ≡ turn_message turn t.now place }
{
    if turn == 0 {
        t.messages[place]
    } else {
        no_message()
    }
}

// Where a turn sees its records, if it looks so and reads this message at this place.
fn places_for(t: &Tables, look: Look, place: usize, message: Message) -> Places
    requires { place < 32 }
    ensures { (result ≡ places_for look place message (passage_at t.now (slot_place look.slot message))) × Placed result }
{
    let slot = slot_place(look.slot, message);
    let site = site_place(look.site, message, t.passages[slot]);
    Places {
        site,
        slot,
        bank: bank_place(look.site, message, site),
        message: place,
    }
}

// The records that stand at these places, with this message.
fn see(t: &Tables, at: Places, message: Message) -> Seen
    requires { Placed at }
    ensures { result ≡ left_message (slot_seen t.now at) message }
{
    let b = 4 * at.bank;
    Seen {
        site: t.sites[at.site],
        passage: t.passages[at.slot],
        visit: t.visits[16 * at.site + at.slot],
        message,
        objects: [
            t.objects[b],
            t.objects[b + 1],
            t.objects[b + 2],
            t.objects[b + 3],
        ],
    }
}

// What a turn leaves is stored in the same places; only the first turn stores a message.
#[tactic(auto, unfolding(rules::specs::Machine::stored))]
fn store(t: &mut Tables, at: Places, turn: usize, left: Seen)
    requires { Placed at }
    ensures { t.new ≡ turn_stored turn t.old at left }
{
    let b = 4 * at.bank;
    t.sites[at.site] = left.site;
    t.passages[at.slot] = left.passage;
    t.visits[16 * at.site + at.slot] = left.visit;
    t.objects[b] = left.objects[0];
    t.objects[b + 1] = left.objects[1];
    t.objects[b + 2] = left.objects[2];
    t.objects[b + 3] = left.objects[3];
    if turn == 0 {
        t.messages[at.message] = left.message;
    }
}

// One turn of a record's work, after this answer: look, decide, store in place.
// One body serves the step's own turn, which is the first, and the slots of a sweep or a crash.
fn take_turn(t: &mut Tables, task: &Task, turn: usize, before: Answer) -> Answer
    requires { (task.now.first ≡ reading_look task.now.reading)
        × (turn ≤ 16)
        × (trip_value task.now.first.trip before ≤ turn)
        × (turn ≡ 0 → in_range t.old ≡ true) }
    ensures { left_with result t.new ≡ turn_made task.now.reading task.now.pass.empty task.now.pass.remains turn (left_with before t.old) }
{
    let look = turn_look(task.first, turn);
    let place = mail_place(look.mail, task.pass.empty);
    let message = message_for(t, turn, place);
    let at = places_for(t, look, place, message);
    let found = Found {
        place,
        remains: task.pass.remains,
    };
    let d = decide_turn(
        task.reading,
        task.first.trip,
        turn,
        found,
        before,
        see(t, at, message),
    );
    store(t, at, turn, d.left);
    d.answer
}

// A record's work on tables that are in range: the first turn's answer says how many slots follow.
fn work(t: &mut Tables, bytes: [u8; 16]) -> Answer
    requires { in_range t.old ≡ true }
    ensures { left_with result t.new ≡ record_in_range_of t.old bytes }
{
    let reading = read_record(bytes);
    let first = reading_look(reading);
    let asked = slot_place(first.slot, t.messages[0]);
    let task = Task {
        reading,
        first,
        pass: look_over(t, asked, scan_count(reading)),
    };
    // Before the first turn there is no answer, and what stands in its place does not matter.
    let mut answer = take_turn(t, &task, 0, Err(Refusal::NoStep));
    for slot in 0..turn_count(first.trip, answer) {
        answer = take_turn(t, &task, slot + 1, answer);
    }
    answer
}

// The tables that the first n records of a part leave, run from the start.
// Their answers are put at the front of the list, as many as it has room for.
// The tables live here until the last record: they are lent to each record's work, and no table is copied.
pub fn run(part: &[u8], n: usize, out: &mut [Answer]) -> Tables
    requires { 16 * n ≤ length part.now }
    ensures { Ran part.now n out.old out.new result }
{
    let mut t = start();
    for i in 0..n {
        let answer = work(&mut t, record_at(part, i));
        if i < out.len() {
            out[i] = answer;
        }
    }
    t
}

// The tables that the records of a part leave, run from the start. Their answers are put nowhere, for want of room.
pub fn tables_after(part: &[u8]) -> Tables
    ensures { result ≡ run_records_of start (records_up_to part.now (length part.now / 16)) }
{
    run(part, part.len() / 16, &mut [])
}
