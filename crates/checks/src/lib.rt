// How a step is refused: the lines of the refusal table, each of which gives its refusal where it holds, and what settles a step by the first that does.
#![tactic(auto)]

ghost use Rattle.std.specs.Prelude.{◌≡◌};
ghost use Rattle.rules.specs.Answers.{refuse};
ghost use Rattle.checks.specs.Order.{tried_by, settled_by};
ghost use Rattle.rules.specs.Checks.{bad_site, bad_handle, bad_times, bad_message, no_passage, no_mail, site_down, visit_missing, clock_full, is_full};

use parts::message::is_empty;
use parts::passage::is_free;
use rules::limits::{CLOCK_MOST, HANDLE_MOST, MESSAGE_MOST, SITE_MOST, TIME_MOST};
use rules::looking::Seen;
use rules::outcomes::{Decision, Refusal};

// A line of the refusal table: this refusal, where it holds.
pub fn refuse(gives: Refusal, holds: bool) -> Option<Refusal>
    ensures { result ≡ tried_by (refuse gives holds) }
{
    holds.then_some(gives)
}

// A step is settled by what was tried: refused it keeps what was seen, accepted it answers this value and leaves these records.
#[tactic(auto, unfolding(crate::specs::Order::settled_by))]
pub fn settle(tried: Option<Refusal>, value: u64, left: Seen, seen: Seen) -> Decision
    ensures { result ≡ settled_by tried value left seen }
{
    match tried {
        Some(refusal) => Decision {
            answer: Err(refusal),
            left: seen,
        },
        None => Decision {
            answer: Ok(value),
            left,
        },
    }
}

pub fn bad_site(site: u8) -> bool
    ensures { result ≡ bad_site site }
{
    SITE_MOST < site
}

pub fn bad_handle(h: u16) -> bool
    ensures { result ≡ bad_handle h }
{
    HANDLE_MOST < h
}

pub fn bad_times(quiesce: u32, release: u32) -> bool
    ensures { result ≡ bad_times quiesce release }
{
    (TIME_MOST < quiesce) | (TIME_MOST < release) | (release < quiesce)
}

pub fn bad_message(m: u8) -> bool
    ensures { result ≡ bad_message m }
{
    MESSAGE_MOST < m
}

// The handle's slot is free, or it has another generation.
pub fn no_passage(h: u16, seen: Seen) -> Option<Refusal>
    ensures { result ≡ tried_by (no_passage h seen) }
{
    refuse(
        Refusal::NotThere,
        is_free(seen.passage.status) | (u16::from(seen.passage.generation) != h / 16),
    )
}

pub fn no_mail(seen: Seen) -> Option<Refusal>
    ensures { result ≡ tried_by (no_mail seen) }
{
    refuse(Refusal::NotThere, is_empty(seen.message.body))
}

pub fn site_down(seen: Seen) -> Option<Refusal>
    ensures { result ≡ tried_by (site_down seen) }
{
    refuse(Refusal::SiteDown, !seen.site.up)
}

pub fn visit_missing(seen: Seen) -> Option<Refusal>
    ensures { result ≡ tried_by (visit_missing seen) }
{
    refuse(Refusal::NoVisit, !seen.visit.there)
}

pub fn clock_full(clock: u64) -> Option<Refusal>
    ensures { result ≡ tried_by (clock_full clock) }
{
    refuse(Refusal::ClockFull, CLOCK_MOST < clock)
}

// No empty message slot: the one looked at as the lowest empty one is not empty.
pub fn is_full(seen: Seen) -> bool
    ensures { result ≡ is_full seen }
{
    !is_empty(seen.message.body)
}
