// Visits and clocks.
ghost use Rattle.std.specs.Prelude.{◌≤◌, ◌<◌, ◌≡◌, get_or};
ghost use Rattle.rules.specs.Tables.{no_visit};
ghost use Rattle.rules.specs.Parts.{clock_to, where_there, quieted, new_visit, count_sent, count_received, figures_of, asked_visit, told_visit};

use rules::tables::{Asked, Figures, Site, Told, Visit};

pub fn clock_to(s: Site, clock: u64) -> Site
    ensures { result ≡ clock_to s clock }
{
    Site { clock, ..s }
}

// What changes a visit that isn't there does nothing.
pub fn where_there(v: Visit, changed: Visit) -> Visit
    ensures { result ≡ where_there v changed }
{
    if v.there { changed } else { v }
}

pub fn quieted(v: Visit, clock: u64, prepared: bool, dead: bool) -> Visit
    ensures { result ≡ quieted v clock prepared dead }
{
    Visit {
        quiesce: u64::from(v.quiesce).min(clock) as u32,
        prepared,
        dead,
        ..v
    }
}

pub fn new_visit(quiesce: u32, release: u32, round: u16) -> Visit
    ensures { result ≡ new_visit quiesce release round }
{
    Visit {
        there: true,
        quiesce,
        release,
        round,
        ..no_visit()
    }
}

// One call more sent to a site.
pub fn count_sent(mut v: Visit, site: usize) -> Visit
    requires { (site < 8) × (get_or v.sent site 0 ≤ 1000) }
    ensures { result ≡ count_sent v site }
{
    v.sent[site] += 1;
    v
}

// One call more received.
pub fn count_received(v: Visit) -> Visit
    requires { v.received ≤ 1000 }
    ensures { result ≡ count_received v }
{
    Visit {
        received: v.received + 1,
        ..v
    }
}

pub fn figures_of(v: Visit) -> Figures
    ensures { result ≡ figures_of v }
{
    // The borrow checker covers no array field that goes straight into a literal.
    let sent = v.sent;
    Figures {
        sent,
        received: v.received,
        quiesce: v.quiesce,
    }
}

// A visit's part in phase 1.
pub fn asked_visit(asked: Asked, number: u16, clock: u64, v: Visit) -> Visit
    ensures { result ≡ asked_visit asked number clock v }
{
    let asked = match asked {
        Asked::Refresh(release) => Visit {
            release: v.release.max(release),
            ..v
        },
        Asked::Terminate => quieted(v, clock, false, v.dead),
        Asked::Prepare => quieted(v, clock, true, v.dead),
    };
    Visit {
        round: number,
        ..asked
    }
}

// A visit's part in phase 2.
pub fn told_visit(told: Told, v: Visit) -> Visit
    ensures { result ≡ told_visit told v }
{
    match told {
        Told::Refresh(quiesce) => Visit {
            quiesce: v.quiesce.max(quiesce),
            ..v
        },
        Told::Terminate(m) => Visit {
            release: v.release.min(m),
            ..v
        },
        Told::Prepare => no_visit(),
    }
}

// An emptied place.
pub fn no_visit() -> Visit
    ensures { result ≡ no_visit }
{
    Visit {
        there: false,
        quiesce: 0,
        release: 0,
        round: 0,
        prepared: false,
        dead: false,
        sent: [0; 8],
        received: 0,
    }
}
