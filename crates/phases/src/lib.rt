// The messages of a round are delivered: 11 deliver of a phase 1 message, and of a phase 2 message.
// Each equals its definition in rules' specs/Calls.antt: the checks in the order of the refusal table, then the records that are left.
#![tactic(auto)]

ghost use Rattle.std.specs.Prelude.{◌≡◌};
ghost use Rattle.checks.specs.Order.{tried_all};
ghost use Rattle.rules.specs.Sane.{Sane};
ghost use Rattle.rules.specs.Calls.{round_checks, status_at_home, answer_back, asked_at, deliver_phase_one_of, told_at, deliver_phase_two_of};

use checks::{bad_message, clock_full, refuse, settle, site_down, visit_missing};
use parts::message::{answer_message, no_message};
use parts::object::told_objects;
use parts::passage::with_status;
use parts::round::{asked_status, asks_life, tells_life, told_status};
use parts::seen::{at_home, mail_clock, mail_slot};
use parts::visit::{asked_visit, clock_to, told_visit};
use rules::looking::Seen;
use rules::outcomes::{Decision, Refusal};
use rules::tables::{Asked, Message, Passage, Status, Told, Visit};

// What a delivered phase 1 or phase 2 message tries.
fn round_tried(m: u8, life: bool, wrong: bool, clock: u64, seen: Seen) -> Option<Refusal>
    ensures { result ≡ tried_all (round_checks m life wrong clock seen) }
{
    refuse(Refusal::BadField, bad_message(m))
        .or(site_down(seen))
        .or(visit_missing(seen))
        .or(clock_full(clock))
        .or(refuse(Refusal::Quiesced, life & seen.visit.dead))
        .or(refuse(Refusal::WrongRound, wrong))
}

// At home the passage takes this status.
fn status_at_home(status: Status, seen: Seen) -> Passage
    ensures { result ≡ status_at_home status seen }
{
    if at_home(seen) {
        with_status(seen.passage, status)
    } else {
        seen.passage
    }
}

// Away from home the message's slot then holds the answer.
fn answer_back(v: Visit, clock: u64, seen: Seen) -> Message
    ensures { result ≡ answer_back v clock seen }
{
    let m = seen.message;
    if at_home(seen) {
        no_message()
    } else {
        answer_message(v, m.destination, seen.passage.home, m.handle, clock)
    }
}

// What a delivered phase 1 message leaves at this clock.
fn asked_at(number: u16, asked: Asked, clock: u64, seen: Seen) -> Seen
    ensures { result ≡ asked_at number asked clock seen }
{
    let status = asked_status(asked, seen.passage.status);
    let visit = asked_visit(asked, number, clock, seen.visit);
    Seen {
        site: clock_to(seen.site, clock),
        passage: status_at_home(status, seen),
        visit,
        message: answer_back(visit, clock, seen),
        ..seen
    }
}

// 11. deliver of a phase 1 message.
pub fn deliver_phase_one(m: u8, number: u16, asked: Asked, seen: Seen) -> Decision
    requires { Sane seen }
    ensures { result ≡ deliver_phase_one_of m number asked seen }
{
    let clock = mail_clock(seen);
    let wrong = number <= seen.visit.round;
    let tried = round_tried(m, asks_life(asked), wrong, clock, seen);
    settle(tried, 0, asked_at(number, asked, clock, seen), seen)
}

// What a delivered phase 2 message leaves at this clock.
fn told_at(told: Told, clock: u64, seen: Seen) -> Seen
    ensures { result ≡ told_at told clock seen }
{
    let status = told_status(told, seen.passage.status);
    Seen {
        site: clock_to(seen.site, clock),
        passage: status_at_home(status, seen),
        visit: told_visit(told, seen.visit),
        message: no_message(),
        objects: told_objects(told, mail_slot(seen), seen.objects),
    }
}

// 11. deliver of a phase 2 message.
pub fn deliver_phase_two(m: u8, number: u16, told: Told, seen: Seen) -> Decision
    requires { Sane seen }
    ensures { result ≡ deliver_phase_two_of m number told seen }
{
    let clock = mail_clock(seen);
    let wrong = number != seen.visit.round;
    let tried = round_tried(m, tells_life(told), wrong, clock, seen);
    settle(tried, 0, told_at(told, clock, seen), seen)
}
