// A check under way: its steps, each made on the tables that the one before it left, if that one was accepted.
// The tables go to the machine unread: all that a check knows it has from the answers.
ghost use Rattle.std.specs.Prelude.{◌≡◌};
ghost use Rattle.rules.specs.Answers.{is_accepted, answer_value};
ghost use Rattle.clearing.specs.Clearing.{made, then_made, handle_in, mail_in, width_in, there_and_back};

use machine::step;
use rules::outcomes::{Answer, Outcome};
use rules::steps::Step;
use rules::tables::Tables;

// The last step that a check made, the answer to it, and the tables that it left.
#[derive(Clone, Copy)]
pub(crate) struct Way {
    pub(crate) step: Step,
    pub(crate) answer: Answer,
    pub(crate) tables: Tables,
}

impl Way {
    pub(crate) fn make(t: Tables, s: Step) -> Way
        ensures { result ≡ made t s }
    {
        let Outcome { answer, tables } = step(t, s);
        Way {
            step: s,
            answer,
            tables,
        }
    }

    // The next step is made if the last one was accepted.
    pub(crate) fn then(self, s: Step) -> Way
        ensures { result ≡ then_made self s }
    {
        match self.answer {
            Ok(_) => Way::make(self.tables, s),
            Err(_) => self,
        }
    }

    // A step that sends a message, its delivery, and the delivery of what then stands in the same slot.
    #[tactic(auto, unfolding(crate::specs::Clearing::there_and_back))]
    pub(crate) fn there_and_back(self, s: Step) -> Way
        ensures { result ≡ there_and_back self s }
    {
        let sent = self.then(s);
        let delivery = Step::Deliver {
            message: sent.mail(),
        };
        sent.then(delivery).then(delivery)
    }

    pub(crate) fn is_accepted(self) -> bool
        ensures { result ≡ is_accepted self.answer }
    {
        self.answer.is_ok()
    }

    // What the last step answered; 0 where it was refused.
    fn value(self) -> u64
        ensures { result ≡ answer_value self.answer }
    {
        self.answer.unwrap_or(0)
    }

    // Its answer as a handle, as a message slot and as a width.
    pub(crate) fn handle(self) -> u16
        ensures { result ≡ handle_in self }
    {
        (self.value() % 65536) as u16
    }

    pub(crate) fn mail(self) -> u8
        ensures { result ≡ mail_in self }
    {
        (self.value() % 256) as u8
    }

    pub(crate) fn width(self) -> u32
        ensures { result ≡ width_in self }
    {
        (self.value() % 4294967296) as u32
    }
}
