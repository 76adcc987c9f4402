// The mail of an open round goes out: 7 ask, 9 tell.
// Each equals its definition in rules' specs/Rounds.antt: the checks in the order of the refusal table, then the records that are left.
#![tactic(auto)]

ghost use Rattle.std.specs.Prelude.{◌≡◌};
ghost use Rattle.rules.specs.Sane.{Sane};
ghost use Rattle.rules.specs.Rounds.{sent_out, ask_body, ask_of, tell_body, tell_of};

use checks::{bad_handle, bad_site, clock_full, is_full, no_passage, refuse, settle, site_down};
use closing::round_told;
use parts::message::plain_message;
use parts::round::{asked_of, has_answered, is_phase_one, is_phase_two};
use parts::visit::clock_to;
use rules::looking::Seen;
use rules::outcomes::{Decision, Refusal};
use rules::tables::{Body, Round};

// A message from home goes into the empty slot, and the clock moves.
fn sent_out(body: Body, h: u16, site: u8, clock: u64, seen: Seen) -> Seen
    ensures { result ≡ sent_out body h site clock seen }
{
    Seen {
        site: clock_to(seen.site, clock),
        message: plain_message(body, seen.passage.home, site, h, clock),
        ..seen
    }
}

fn ask_body(round: Round) -> Body
    ensures { result ≡ ask_body round }
{
    Body::PhaseOne {
        number: round.number,
        asked: asked_of(round.kind),
    }
}

// 7. ask, where place is the lowest empty message slot.
pub fn ask(h: u16, site: u8, place: usize, seen: Seen) -> Decision
    requires { Sane seen }
    ensures { result ≡ ask_of h site place seen }
{
    let passage = seen.passage;
    let clock = seen.site.clock + 1;
    let wrong = !is_phase_one(passage.round.phase) | (site == passage.home);
    let tried = refuse(Refusal::BadField, bad_handle(h) | bad_site(site))
        .or(no_passage(h, seen))
        .or(site_down(seen))
        .or(refuse(Refusal::WrongState, wrong))
        .or(clock_full(clock))
        .or(refuse(Refusal::Full, is_full(seen)));
    let left = sent_out(ask_body(passage.round), h, site, clock, seen);
    settle(tried, place as u64, left, seen)
}

fn tell_body(round: Round) -> Body
    ensures { result ≡ tell_body round }
{
    Body::PhaseTwo {
        number: round.number,
        told: round_told(round),
    }
}

// 9. tell, where place is the lowest empty message slot.
pub fn tell(h: u16, site: u8, place: usize, seen: Seen) -> Decision
    requires { Sane seen }
    ensures { result ≡ tell_of h site place seen }
{
    let passage = seen.passage;
    let round = passage.round;
    let clock = seen.site.clock + 1;
    let answered = has_answered(round, usize::from(site % 8));
    let wrong = !is_phase_two(round.phase) | !answered | (site == passage.home);
    let tried = refuse(Refusal::BadField, bad_handle(h) | bad_site(site))
        .or(no_passage(h, seen))
        .or(site_down(seen))
        .or(refuse(Refusal::WrongState, wrong))
        .or(clock_full(clock))
        .or(refuse(Refusal::Full, is_full(seen)));
    let left = sent_out(tell_body(round), h, site, clock, seen);
    settle(tried, place as u64, left, seen)
}
