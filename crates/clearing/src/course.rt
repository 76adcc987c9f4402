// A check from its accepted begin to its end.
ghost use Rattle.std.specs.Prelude.{◌≤◌, ◌≡◌, length};
ghost use Rattle.clearing.specs.Question.{is_to_ask, is_fitting};
ghost use Rattle.clearing.specs.Clearing.{handle_in, read_one, reads_up_to, widths_up_to, read_count, ask_one, asks_up_to, tell_one, tells_up_to, dropped, given_up, committed, ended_of, went_of};

use crate::question::{Inquiry, has_object_at};
use crate::way::Way;
use crate::{Cleared, Verdict, no_reading};
use rules::outcomes::Answer;
use rules::steps::Step;
use rules::tables::Tables;

// What is asked, which none of the check's own refusals stops, and its accepted begin.
#[derive(Clone, Copy)]
pub(crate) struct Course<'a> {
    pub(crate) inquiry: Inquiry<'a>,
    pub(crate) begun: Way,
    ghost fair: { (inquiry.beam ≤ 1000000) × (inquiry.margin ≤ 5000) × (length inquiry.objects.now ≤ 8) },
}

// The reads of a check: how far it came, the widths that it read, and how many.
#[derive(Clone, Copy)]
struct Reads {
    way: Way,
    widths: [u32; 8],
    read: usize,
}

impl Course<'_> {
    fn handle(&self) -> u16
        ensures { result ≡ handle_in self.now.begun }
    {
        self.begun.handle()
    }

    // A read from home: its call goes out and arrives, and the reply comes home with the width.
    #[tactic(auto, unfolding(crate::specs::Clearing::read_one))]
    fn read_one(&self, way: Way, object: u8) -> Way
        ensures { result ≡ read_one (handle_in self.now.begun) self.now.inquiry.home way object }
    {
        way.there_and_back(Step::Invoke {
            handle: self.handle(),
            site: self.inquiry.home,
            write: 0,
            object,
            value: 0,
        })
    }

    #[tactic(auto, unfolding(crate::specs::Clearing::reads_up_to, crate::specs::Clearing::widths_up_to, crate::specs::Clearing::read_count))]
    fn read_all(&self) -> Reads
        ensures way { result.way ≡ reads_up_to (handle_in self.now.begun) self.now.inquiry.home self.now.inquiry.objects.now self.now.begun (length self.now.inquiry.objects.now) }
        ensures widths { result.widths ≡ widths_up_to (handle_in self.now.begun) self.now.inquiry.home self.now.inquiry.objects.now self.now.begun (length self.now.inquiry.objects.now) }
        ensures read { result.read ≡ read_count (handle_in self.now.begun) self.now.inquiry.home self.now.inquiry.objects.now self.now.begun (length self.now.inquiry.objects.now) }
    {
        let mut way = self.begun;
        let mut widths = [0; 8];
        let mut read = 0;
        for (i, object) in self.inquiry.objects.iter().enumerate() {
            way = self.read_one(way, *object);
            widths[i] = way.width();
            read += usize::from(way.is_accepted());
        }
        Reads { way, widths, read }
    }

    fn is_to_ask(&self, site: u8) -> bool
        ensures { result ≡ is_to_ask self.now.inquiry.home self.now.inquiry.objects.now site }
    {
        site != self.inquiry.home && has_object_at(self.inquiry.objects, site)
    }

    // A station is asked: phase 1 goes out and arrives, and its answer comes home.
    #[tactic(auto, unfolding(crate::specs::Clearing::ask_one))]
    fn ask_one(&self, way: Way, site: u8) -> Way
        ensures { result ≡ ask_one (handle_in self.now.begun) way site }
    {
        let handle = self.handle();
        way.there_and_back(Step::Ask { handle, site })
    }

    fn ask_all(&self, prepared: Way) -> Way
        ensures { result ≡ asks_up_to (handle_in self.now.begun) self.now.inquiry.home self.now.inquiry.objects.now prepared 8 }
    {
        (0..8)
            .filter(|site| self.is_to_ask(*site))
            .fold(prepared, |way, site| self.ask_one(way, site))
    }

    // A station is told, if it can be.
    #[tactic(auto, unfolding(crate::specs::Clearing::tell_one))]
    fn tell_one(&self, t: Tables, site: u8) -> Tables
        ensures { result ≡ tell_one (handle_in self.now.begun) t site }
    {
        let handle = self.handle();
        let told = Way::make(t, Step::Tell { handle, site });
        let message = told.mail();
        told.then(Step::Deliver { message }).tables
    }

    fn tell_all(&self, committed: Tables) -> Tables
        ensures { result ≡ tells_up_to (handle_in self.now.begun) self.now.inquiry.home self.now.inquiry.objects.now committed 8 }
    {
        (0..8)
            .filter(|site| self.is_to_ask(*site))
            .fold(committed, |t, site| self.tell_one(t, site))
    }

    // What was begun is aborted, after a refusal.
    fn give_up(&self, refused: Way) -> Tables
        ensures { result ≡ given_up (handle_in self.now.begun) refused }
    {
        let handle = self.handle();
        let aborted = Way::make(refused.tables, Step::Abort { handle });
        drop_mail(aborted.tables, refused.step)
    }

    fn is_fitting(&self, widths: [u32; 8]) -> bool
        ensures { result ≡ is_fitting self.now.inquiry.beam self.now.inquiry.margin widths (length self.now.inquiry.objects.now) }
    {
        let room = self.inquiry.beam + self.inquiry.margin;
        widths[..self.inquiry.objects.len()]
            .iter()
            .all(|width| room <= *width)
    }

    fn commit(&self, widths: [u32; 8], t: Tables) -> Cleared
        ensures { result ≡ committed self.now.inquiry.beam self.now.inquiry.margin widths (length self.now.inquiry.objects.now) (handle_in self.now.begun) t }
    {
        let count = self.inquiry.objects.len();
        Cleared {
            verdict: if self.is_fitting(widths) {
                Verdict::Fits
            } else {
                Verdict::Narrow
            },
            widths,
            count,
            read: count,
            passage: Some(self.handle()),
            tables: t,
        }
    }

    // By the answer of the close, or of the step that was refused before it.
    fn end(&self, reads: Reads, closed: Way) -> Cleared
        ensures { result ≡ ended_of self.now.inquiry.beam self.now.inquiry.margin self.now.inquiry.objects.now self.now.inquiry.home reads.widths reads.read (handle_in self.now.begun) closed }
    {
        match closed.answer {
            Ok(_) => self.commit(reads.widths, self.tell_all(closed.tables)),
            Err(refusal) => {
                let passage = Some(self.handle());
                let left = self.give_up(closed);
                no_reading(passage, reads.read, closed.step, refusal, left)
            }
        }
    }

    pub(crate) fn go(&self) -> Cleared
        ensures { result ≡ went_of self.now.inquiry.beam self.now.inquiry.margin self.now.inquiry.objects.now self.now.inquiry.home self.now.begun }
    {
        let handle = self.handle();
        let reads = self.read_all();
        let prepared = reads.way.then(Step::Prepare { handle });
        let closed = self.ask_all(prepared).then(Step::Close { handle });
        self.end(reads, closed)
    }
}

// The message of a refused delivery is dropped.
fn drop_mail(t: Tables, refused: Step) -> Tables
    ensures { result ≡ dropped t refused }
{
    let Step::Deliver { message } = refused else {
        return t;
    };
    Way::make(t, Step::Drop { message }).tables
}
