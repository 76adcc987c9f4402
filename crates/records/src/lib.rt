// A record of 16 bytes as a step, and a step as a record. "Which fields each step names is one table."
// Each function equals its definition in rules' specs/Record.antt.
#![tactic(auto)]

ghost use Rattle.std.specs.Prelude.{◌-◌, ◌≤◌, ◌≡◌, Some, get_or};
ghost use Rattle.rules.specs.declared.steps.Step.{Step};
ghost use Rattle.rules.specs.Record.{fields_of, bytes_of, is_code, row_of, is_named, fits, fields_fit, kept, kept_fields, steps_of, flat_of, step_of_fields, step_of_record, record_of_step};
ghost use Rattle.records.specs.RoundTrip.{WritesAs};

use rules::steps::{Fields, Step};

// The row of code k is the k-th. In a row field a counts 1, b 2, c 4, h 8, u 16 and v 32.
const NAMED: [u8; 16] = [17, 51, 31, 56, 8, 8, 9, 8, 9, 8, 4, 4, 1, 1, 1, 8];

fn is_code(code: u8) -> bool
    ensures { result ≡ is_code code }
{
    (1..=16).contains(&code)
}

// The one place where the table is read.
fn row_of(code: u8) -> u8
    requires { (1 ≤ code) × (code ≤ 16) }
    ensures { result ≡ row_of code }
{
    NAMED[usize::from(code) - 1]
}

fn is_named(row: u8, field: u8) -> bool
    requires { 1 ≤ field }
    ensures { result ≡ is_named row field }
{
    row / field % 2 == 1
}

// A field that a step doesn't name is 0.
fn fits(row: u8, field: u8, x: u32) -> bool
    requires { 1 ≤ field }
    ensures { result ≡ fits row field x }
{
    is_named(row, field) | (x == 0)
}

// What a step doesn't name is written as 0.
fn kept(row: u8, field: u8, x: u32) -> u32
    requires { 1 ≤ field }
    ensures { (result ≡ kept row field x) × (result ≤ x) }
{
    if is_named(row, field) { x } else { 0 }
}

// Every field fits its row, and the two zero bytes are 0.
fn fields_fit(f: Fields) -> bool
    requires { (1 ≤ f.code) × (f.code ≤ 16) }
    ensures { result ≡ fields_fit f }
{
    let row = row_of(f.code);
    fits(row, 1, u32::from(f.a))
        & fits(row, 2, u32::from(f.b))
        & fits(row, 4, u32::from(f.c))
        & fits(row, 8, u32::from(f.h))
        & fits(row, 16, f.u)
        & fits(row, 32, f.v)
        & (f.zero == 0)
}

// The fields that are written.
fn kept_fields(f: Fields) -> Fields
    requires { (1 ≤ f.code) × (f.code ≤ 16) }
    ensures { result ≡ kept_fields f }
{
    let row = row_of(f.code);
    Fields {
        code: f.code,
        a: kept(row, 1, u32::from(f.a)) as u8,
        b: kept(row, 2, u32::from(f.b)) as u8,
        c: kept(row, 4, u32::from(f.c)) as u8,
        h: kept(row, 8, u32::from(f.h)) as u16,
        zero: 0,
        u: kept(row, 16, f.u),
        v: kept(row, 32, f.v),
    }
}

fn fields_of(bytes: [u8; 16]) -> Fields
    ensures { result ≡ fields_of bytes }
{
    let [
        code,
        a,
        b,
        c,
        h0,
        h1,
        z0,
        z1,
        u0,
        u1,
        u2,
        u3,
        v0,
        v1,
        v2,
        v3,
    ] = bytes;
    Fields {
        code,
        a,
        b,
        c,
        h: u16::from_le_bytes([h0, h1]),
        zero: u16::from_le_bytes([z0, z1]),
        u: u32::from_le_bytes([u0, u1, u2, u3]),
        v: u32::from_le_bytes([v0, v1, v2, v3]),
    }
}

fn bytes_of(f: Fields) -> [u8; 16]
    ensures { result ≡ bytes_of f }
{
    let [h0, h1] = f.h.to_le_bytes();
    let [z0, z1] = f.zero.to_le_bytes();
    let [u0, u1, u2, u3] = f.u.to_le_bytes();
    let [v0, v1, v2, v3] = f.v.to_le_bytes();
    [
        f.code, f.a, f.b, f.c, h0, h1, z0, z1, u0, u1, u2, u3, v0, v1, v2, v3,
    ]
}

// The step of a known code, with the fields that it names.
fn step_of_code(f: Fields) -> Step
    requires { (1 ≤ f.code) × (f.code ≤ 16) }
    ensures { result ≡ get_or (steps_of f) (f.code - 1) (Step.Tick 0 0) }
{
    match f.code {
        1 => Step::Tick { site: f.a, n: f.u },
        2 => Step::Begin {
            home: f.a,
            slot: f.b,
            quiesce: f.u,
            release: f.v,
        },
        3 => Step::Invoke {
            handle: f.h,
            site: f.a,
            write: f.b,
            object: f.c,
            value: f.u,
        },
        4 => Step::Refresh {
            handle: f.h,
            quiesce: f.u,
            release: f.v,
        },
        5 => Step::Terminate { handle: f.h },
        6 => Step::Prepare { handle: f.h },
        7 => Step::Ask {
            handle: f.h,
            site: f.a,
        },
        8 => Step::Close { handle: f.h },
        9 => Step::Tell {
            handle: f.h,
            site: f.a,
        },
        10 => Step::Abort { handle: f.h },
        11 => Step::Deliver { message: f.c },
        12 => Step::Drop { message: f.c },
        13 => Step::Sweep { site: f.a },
        14 => Step::Crash { site: f.a },
        15 => Step::Recover { site: f.a },
        _ => Step::Retire { handle: f.h },
    }
}

// A record with nothing in it: its two zero bytes 0, and every field.
const NO_FIELDS: Fields = Fields {
    code: 0,
    a: 0,
    b: 0,
    c: 0,
    h: 0,
    zero: 0,
    u: 0,
    v: 0,
};

fn flat_of(step: Step) -> Fields
    ensures { result ≡ flat_of step }
{
    match step {
        Step::Tick { site, n } => Fields {
            code: 1,
            a: site,
            u: n,
            ..NO_FIELDS
        },
        Step::Begin {
            home,
            slot,
            quiesce,
            release,
        } => Fields {
            code: 2,
            a: home,
            b: slot,
            u: quiesce,
            v: release,
            ..NO_FIELDS
        },
        Step::Invoke {
            handle,
            site,
            write,
            object,
            value,
        } => Fields {
            code: 3,
            h: handle,
            a: site,
            b: write,
            c: object,
            u: value,
            ..NO_FIELDS
        },
        Step::Refresh {
            handle,
            quiesce,
            release,
        } => Fields {
            code: 4,
            h: handle,
            u: quiesce,
            v: release,
            ..NO_FIELDS
        },
        Step::Terminate { handle } => Fields {
            code: 5,
            h: handle,
            ..NO_FIELDS
        },
        Step::Prepare { handle } => Fields {
            code: 6,
            h: handle,
            ..NO_FIELDS
        },
        Step::Ask { handle, site } => Fields {
            code: 7,
            h: handle,
            a: site,
            ..NO_FIELDS
        },
        Step::Close { handle } => Fields {
            code: 8,
            h: handle,
            ..NO_FIELDS
        },
        Step::Tell { handle, site } => Fields {
            code: 9,
            h: handle,
            a: site,
            ..NO_FIELDS
        },
        Step::Abort { handle } => Fields {
            code: 10,
            h: handle,
            ..NO_FIELDS
        },
        Step::Deliver { message } => Fields {
            code: 11,
            c: message,
            ..NO_FIELDS
        },
        Step::Drop { message } => Fields {
            code: 12,
            c: message,
            ..NO_FIELDS
        },
        Step::Sweep { site } => Fields {
            code: 13,
            a: site,
            ..NO_FIELDS
        },
        Step::Crash { site } => Fields {
            code: 14,
            a: site,
            ..NO_FIELDS
        },
        Step::Recover { site } => Fields {
            code: 15,
            a: site,
            ..NO_FIELDS
        },
        Step::Retire { handle } => Fields {
            code: 16,
            h: handle,
            ..NO_FIELDS
        },
    }
}

// No step: code unknown, or an unnamed field isn't 0.
#[tactic(auto, unfolding(rules::specs::Record::step_of_fields))]
fn step_of_fields(f: Fields) -> Option<Step>
    ensures { result ≡ step_of_fields f }
{
    if is_code(f.code) && fields_fit(f) {
        Some(step_of_code(f))
    } else {
        None
    }
}

// The step that these bytes stand for, or none; a step that is read writes as these bytes.
pub fn read_record(b: [u8; 16]) -> Option<Step>
    ensures { (result ≡ step_of_record b) × WritesAs b result }
{
    step_of_fields(fields_of(b))
}

// The bytes that stand for this step; they read as it.
pub fn write_record(s: Step) -> [u8; 16]
    ensures { (result ≡ record_of_step s) × (step_of_record result ≡ Some s) }
{
    bytes_of(kept_fields(flat_of(s)))
}
