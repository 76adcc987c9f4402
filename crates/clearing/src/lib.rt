// The clearance check: one passage that reads every width on a ship's way, commits, and says whether her beam fits.
#![tactic(auto)]

mod course;
mod question;
mod way;

ghost use Rattle.std.specs.Prelude.{◌≡◌};
ghost use Rattle.clearing.specs.Clearing.{refused_by, no_reading, cleared_of};

use course::Course;
pub use question::Inquiry;
use rules::outcomes::{Answer, Refusal};
use rules::steps::Step;
use rules::tables::Tables;
use way::Way;

// What a check refuses by itself, before any step, in the order in which it is tried, with its number.
#[derive(Clone, Copy)]
pub enum OwnRefusal {
    Beam = 1,
    Margin = 2,
    List = 3,
    Object = 4,
    Twice = 5,
}

// No reading names the step that was refused, and its refusal.
#[derive(Clone, Copy)]
pub enum Verdict {
    Refused(OwnRefusal),
    NoReading(Step, Refusal),
    Narrow,
    Fits,
}

// What a check gives: its verdict, the widths that it shows and their count, how many objects it read,
// the handle of its passage where one was begun, and the tables that it leaves.
#[derive(Clone, Copy)]
pub struct Cleared {
    pub verdict: Verdict,
    // All eight, and the count beside them: `refused_by` and `no_reading` say that each of the eight is 0.
    pub widths: [u32; 8],
    pub count: usize,
    pub read: usize,
    pub passage: Option<u16>,
    pub tables: Tables,
}

fn refuse(own: OwnRefusal, t: Tables) -> Cleared
    ensures { result ≡ refused_by own t }
{
    Cleared {
        verdict: Verdict::Refused(own),
        widths: [0; 8],
        count: 0,
        read: 0,
        passage: None,
        tables: t,
    }
}

fn no_reading(
    passage: Option<u16>,
    read: usize,
    refused: Step,
    refusal: Refusal,
    t: Tables,
) -> Cleared
    ensures { result ≡ no_reading passage read refused refusal t }
{
    Cleared {
        verdict: Verdict::NoReading(refused, refusal),
        widths: [0; 8],
        count: 0,
        read,
        passage,
        tables: t,
    }
}

// Whether a ship of this beam clears every width of the list by this margin.
// The tables are given back as the check leaves them: after own refusals as they were handed in.
#[tactic(auto, unfolding(crate::specs::Clearing::cleared_of))]
pub fn clear(t: Tables, inquiry: &Inquiry) -> Cleared
    ensures { result ≡ cleared_of t inquiry.now.beam inquiry.now.margin inquiry.now.objects.now inquiry.now.home inquiry.now.slot inquiry.now.quiesce inquiry.now.release }
{
    if let Err(own) = inquiry.own_refusal() {
        return refuse(own, t);
    }
    let begun = Way::make(t, inquiry.begin());
    match begun.answer {
        Ok(_) => Course {
            inquiry: *inquiry,
            begun,
        }
        .go(),
        Err(refusal) => no_reading(None, 0, begun.step, refusal, begun.tables),
    }
}
