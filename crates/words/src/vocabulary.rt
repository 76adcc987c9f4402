// The words of the grammar, each as a number: its letters from a = 1 to z = 26, in base 32.

pub const TICK: u64 = 664683;

pub const BEGIN: u64 = 2268462;

pub const INVOKE: u64 = 317406565;

pub const REFRESH: u64 = 19502012008;

pub const TERMINATE: u64 = 22181804705413;

pub const PREPARE: u64 = 17789617733;

pub const ASK: u64 = 1643;

pub const CLOSE: u64 = 3554917;

pub const TELL: u64 = 660876;

pub const ABORT: u64 = 1130068;

pub const DELIVER: u64 = 4475639986;

pub const DROP: u64 = 150000;

pub const SWEEP: u64 = 20681904;

pub const CRASH: u64 = 3737192;

pub const RECOVER: u64 = 19498784946;

pub const RETIRE: u64 = 609887813;

pub const RAW: u64 = 18487;

pub const BY: u64 = 89;

pub const HOME: u64 = 277925;

pub const SLOT: u64 = 635380;

pub const QUIESCE: u64 = 18967874661;

pub const RELEASE: u64 = 19507873381;

pub const AT: u64 = 52;

pub const READ: u64 = 594980;

pub const WRITE: u64 = 24716933;

pub const OPERATION: u64 = 17048404633070;

pub const OBJECT: u64 = 505746548;

pub const VALUE: u64 = 23114405;
