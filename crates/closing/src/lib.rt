// A round goes from phase 1 to phase 2: 8 close.
// It equals its definition in rules' specs/Rounds.antt: the checks in the order of the refusal table, then the records that are left.
#![tactic(auto)]

ghost use Rattle.std.specs.Prelude.{◌≡◌};
ghost use Rattle.rules.specs.Sane.{Sane};
ghost use Rattle.rules.specs.Rounds.{round_told, closed_passage, objects_where_there, closed, close_of};

use checks::{bad_handle, clock_full, no_passage, refuse, settle, site_down};
use parts::object::told_objects;
use parts::round::{
    answer_count, is_closed, is_phase_one, largest_quiesce, told_of, told_status, with_phase,
};
use parts::visit::{clock_to, told_visit, where_there};
use rules::looking::Seen;
use rules::outcomes::{Decision, Refusal};
use rules::tables::{Object, Passage, Phase, Round, Told, Visit};

// What a round tells in its phase 2.
pub fn round_told(round: Round) -> Told
    ensures { result ≡ round_told round }
{
    told_of(round.kind, largest_quiesce(round))
}

fn closed_passage(told: Told, p: Passage) -> Passage
    ensures { result ≡ closed_passage told p }
{
    Passage {
        status: told_status(told, p.status),
        round: with_phase(p.round, Phase::Two),
        ..p
    }
}

fn objects_where_there(v: Visit, changed: [Object; 4], objects: [Object; 4]) -> [Object; 4]
    ensures { result ≡ objects_where_there v changed objects }
{
    if v.there { changed } else { objects }
}

// What a close leaves at this clock, where the round tells this.
fn closed(told: Told, slot: u8, clock: u64, seen: Seen) -> Seen
    ensures { result ≡ closed told slot clock seen }
{
    let visit = seen.visit;
    let freed = told_objects(told, slot, seen.objects);
    Seen {
        site: clock_to(seen.site, clock),
        passage: closed_passage(told, seen.passage),
        visit: where_there(visit, told_visit(told, visit)),
        objects: objects_where_there(visit, freed, seen.objects),
        ..seen
    }
}

// 8. close
pub fn close(h: u16, seen: Seen) -> Decision
    requires { Sane seen }
    ensures { result ≡ close_of h seen }
{
    let round = seen.passage.round;
    let clock = seen.site.clock + 1;
    let tried = refuse(Refusal::BadField, bad_handle(h))
        .or(no_passage(h, seen))
        .or(site_down(seen))
        .or(refuse(Refusal::WrongState, !is_phase_one(round.phase)))
        .or(clock_full(clock))
        .or(refuse(Refusal::NotClosed, !is_closed(round)));
    let count = answer_count(round);
    let left = closed(round_told(round), (h % 16) as u8, clock, seen);
    settle(tried, u64::from(count), left, seen)
}
