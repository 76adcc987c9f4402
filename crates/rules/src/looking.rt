// Where a step looks, and what it sees there.
use crate::tables::{Message, Object, Passage, Site, Visit};

// Which message slot a step looks at: none, the one that it names, or the lowest empty one.
#[derive(Clone, Copy)]
pub enum MailAt {
    Nowhere,
    Given(u8),
    Empty,
}

// Which passage slot: that of the slot or handle that it names, or of its message's handle.
#[derive(Clone, Copy)]
pub enum SlotAt {
    Given(u16),
    Mail,
}

// Which site: the one that it names, the passage's home, or its message's destination.
#[derive(Clone, Copy)]
pub enum SiteAt {
    Given(u8),
    Home,
    Mail,
}

// Whether a step goes on through the sixteen slots of a site.
#[derive(Clone, Copy)]
pub enum Trip {
    Nowhere,
    Sweep(u8),
    Crash(u8),
}

// Where a step looks, as its fields name it.
#[derive(Clone, Copy)]
pub struct Look {
    pub mail: MailAt,
    pub slot: SlotAt,
    pub site: SiteAt,
    pub trip: Trip,
}

// Where the records that a step sees stand: its site, its passage slot, the site whose four objects it sees, its message.
#[derive(Clone, Copy)]
pub struct Places {
    pub site: usize,
    pub slot: usize,
    pub bank: usize,
    pub message: usize,
}

// What looking finds beside the records: the message slot that a new message takes, and whether a visit or message of the passage slot remains.
#[derive(Clone, Copy)]
pub struct Found {
    pub place: usize,
    pub remains: bool,
}

// The records that a step sees, and all that it can change.
#[derive(Clone, Copy)]
pub struct Seen {
    pub site: Site,
    pub passage: Passage,
    pub visit: Visit,
    pub message: Message,
    pub objects: [Object; 4],
}
