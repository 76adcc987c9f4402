// A message is delivered, by what its slot holds: a call, a phase 1 or phase 2 message, an answer, a reply, or nothing.
ghost use Rattle.std.specs.Prelude.{◌≡◌};
ghost use Rattle.rules.specs.Sane.{Sane};
ghost use Rattle.rules.specs.Calls.{empty_of, answered_at, deliver_answer_of, deliver_of};

use calls::collected::deliver_reply;
use calls::delivered::deliver_call;
use checks::{bad_message, clock_full, no_mail, refuse, settle, site_down};
use parts::message::no_message;
use parts::passage::{is_free, with_round};
use parts::round::{is_phase_one, with_answer};
use parts::seen::mail_clock;
use parts::visit::clock_to;
use phases::{deliver_phase_one, deliver_phase_two};
use rules::looking::Seen;
use rules::outcomes::{Decision, Refusal};
use rules::tables::{Body, Figures};

// An empty slot: 2, then 3.
fn deliver_empty(m: u8, seen: Seen) -> Decision
    ensures { result ≡ empty_of m seen }
{
    let tried = refuse(Refusal::BadField, bad_message(m)).or(no_mail(seen));
    settle(tried, 0, seen, seen)
}

// What a delivered answer leaves at this clock.
fn answered_at(f: Figures, clock: u64, seen: Seen) -> Seen
    requires { Sane seen }
    ensures { result ≡ answered_at f clock seen }
{
    let passage = seen.passage;
    let source = usize::from(seen.message.source);
    Seen {
        site: clock_to(seen.site, clock),
        passage: with_round(passage, with_answer(passage.round, source, f)),
        message: no_message(),
        ..seen
    }
}

// 11. deliver of an answer.
fn deliver_answer(m: u8, number: u16, received: u16, quiesce: u32, seen: Seen) -> Decision
    requires { Sane seen }
    ensures { result ≡ deliver_answer_of m number received quiesce seen }
{
    let clock = mail_clock(seen);
    let passage = seen.passage;
    let round = passage.round;
    let wrong = is_free(passage.status) | !is_phase_one(round.phase) | (number != round.number);
    let tried = refuse(Refusal::BadField, bad_message(m))
        .or(site_down(seen))
        .or(clock_full(clock))
        .or(refuse(Refusal::WrongRound, wrong));
    let sent = seen.message.sent;
    let figures = Figures {
        sent,
        received,
        quiesce,
    };
    settle(tried, 0, answered_at(figures, clock, seen), seen)
}

// 11. deliver, by what the message slot holds.
#[tactic(auto, unfolding(rules::specs::Calls::deliver_body_of))]
pub fn deliver(m: u8, seen: Seen) -> Decision
    requires { Sane seen }
    ensures { result ≡ deliver_of m seen }
{
    match seen.message.body {
        Body::Empty => deliver_empty(m, seen),
        Body::Call(call) => deliver_call(m, call, seen),
        Body::PhaseOne { number, asked } => deliver_phase_one(m, number, asked, seen),
        Body::PhaseTwo { number, told } => deliver_phase_two(m, number, told, seen),
        Body::Answer {
            number,
            received,
            quiesce,
        } => deliver_answer(m, number, received, quiesce, seen),
        Body::Reply { value } => deliver_reply(m, value, seen),
    }
}
