// The machine on tables that no run reaches. Each line: the refusal number, the value, and the clock of site 0 afterwards.
#![tactic(auto)]

use answers::{answer_number, answer_value};
use machine::{step, step_record};
use parts::message::plain_message;
use parts::visit::new_visit;
use rules::outcomes::Outcome;
use rules::steps::Step;
use rules::tables::{Body, Call, Phase, Tables};
use start::start;
use std::io;

fn show(rt: &HostRuntime, o: Outcome) -> io::Result<()> {
    let number = answer_number(o.answer);
    let value = answer_value(o.answer);
    let clock = o.tables.sites[0].clock;
    println!(rt; "{number} {value} {clock}")
}

// A clock above its range.
fn late_clock() -> Tables {
    let mut t = start();
    t.sites[0].clock = 2000000001;
    t
}

// An object held by slot 16.
fn odd_holder() -> Tables {
    let mut t = start();
    t.objects[31].holder = Some(16);
    t
}

// A free slot with kind none in phase 2.
fn odd_phase() -> Tables {
    let mut t = start();
    t.passages[15].round.phase = Phase::Two;
    t
}

// A visit of a free slot at site 0, with release time 1.
fn lone_visit() -> Tables {
    let mut t = start();
    t.visits[3] = new_visit(1, 1, 0);
    t
}

// A call to site 0 in the name of a free slot, stamped 6, for object 1.
fn lone_call() -> Tables {
    let mut t = start();
    let call = Call {
        quiesce: 100,
        release: 150,
        round: 0,
        object: 1,
        write: true,
        value: 12500,
    };
    t.messages[31] = plain_message(Body::Call(call), 1, 0, 5, 6);
    t
}

fn main(rt: HostRuntime) -> io::Result<()> {
    let tick = Step::Tick { site: 0, n: 5 };
    let sweep = Step::Sweep { site: 0 };
    let deliver = Step::Deliver { message: 31 };
    show(&rt, step(start(), tick))?;
    show(&rt, step(late_clock(), tick))?;
    show(&rt, step(odd_holder(), tick))?;
    show(&rt, step(odd_phase(), tick))?;
    show(&rt, step(lone_visit(), sweep))?;
    show(&rt, step(lone_call(), deliver))?;
    show(&rt, step_record(late_clock(), [17u8; 16]))?;
    show(&rt, step_record(start(), [17u8; 16]))
}
