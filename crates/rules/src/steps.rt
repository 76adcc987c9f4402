// The sixteen steps. Each field has the width that its record gives it, so that any number can be said.

#[derive(Clone, Copy)]
pub enum Step {
    Tick {
        site: u8,
        n: u32,
    },
    Begin {
        home: u8,
        slot: u8,
        quiesce: u32,
        release: u32,
    },
    Invoke {
        handle: u16,
        site: u8,
        write: u8,
        object: u8,
        value: u32,
    },
    Refresh {
        handle: u16,
        quiesce: u32,
        release: u32,
    },
    Terminate {
        handle: u16,
    },
    Prepare {
        handle: u16,
    },
    Ask {
        handle: u16,
        site: u8,
    },
    Close {
        handle: u16,
    },
    Tell {
        handle: u16,
        site: u8,
    },
    Abort {
        handle: u16,
    },
    Deliver {
        message: u8,
    },
    Drop {
        message: u8,
    },
    Sweep {
        site: u8,
    },
    Crash {
        site: u8,
    },
    Recover {
        site: u8,
    },
    Retire {
        handle: u16,
    },
}

// The fields of a record of 16 bytes: code, a, b, c, the handle, the two zero bytes, u and v.
#[derive(Clone, Copy)]
pub struct Fields {
    pub code: u8,
    pub a: u8,
    pub b: u8,
    pub c: u8,
    pub h: u16,
    pub zero: u16,
    pub u: u32,
    pub v: u32,
}

// The four refusals of a sheet, in their order and with their numbers.
#[derive(Clone, Copy)]
pub enum SheetRefusal {
    TooLong = 1,
    TooShort = 2,
    BadMark = 3,
    BadDistance = 4,
}

// What a sheet's reader says of it: taken, or refused.
pub type SheetAnswer = Result<(), SheetRefusal>;
