// The two tables of the grammar, and where they are read.
// Each function equals its definition in words' specs/Grammar.antt.
#![tactic(auto)]

ghost use Rattle.std.specs.Prelude.{◌≤◌, ◌<◌, ◌≡◌, ◌&&◌, cond, ltb, eqb, IfSome};
ghost use Rattle.std.specs.List.{position};
ghost use Rattle.words.specs.declared.rows.Edge.{Edge};
ghost use Rattle.words.specs.Grammar.{edge_of, edge_at, slot_at, may_end};

use words::rows::{EDGE_COUNT, Edge, Said, Slot};
use words::vocabulary::{
    ABORT, ASK, AT, BEGIN, BY, CLOSE, CRASH, DELIVER, DROP, HOME, INVOKE, OBJECT, OPERATION,
    PREPARE, QUIESCE, RAW, READ, RECOVER, REFRESH, RELEASE, RETIRE, SLOT, SWEEP, TELL, TERMINATE,
    TICK, VALUE, WRITE,
};

// At place `from` the word leads to place `to`, and may say that byte `field` of the record is `value`.
macro_rules! edge {
    ($from:literal, $word:expr, $to:literal) => {
        Edge { from: $from, word: $word, to: $to, says: None }
    };
    ($from:literal, $word:expr, $to:literal, $field:literal = $value:literal) => {
        Edge {
            from: $from,
            word: $word,
            to: $to,
            says: Some(Said { field: $field, value: $value }),
        }
    };
}

// A number goes into `width` bytes from byte `field` on, and leads to place `to`.
macro_rules! slot {
    ($field:literal, $width:literal, $to:literal) => {
        Some(Slot { field: $field, width: $width, to: $to })
    };
}

// Where each word leads, a row to a word.
// Both tables are statics: each call that reads a constant of such rows would first put all of it together.
pub static EDGES: [Edge; EDGE_COUNT] = [
    edge!(0, TICK, 5, 0 = 1),
    edge!(0, BEGIN, 8, 0 = 2),
    edge!(0, INVOKE, 19, 0 = 3),
    edge!(0, REFRESH, 16, 0 = 4),
    edge!(0, TERMINATE, 4, 0 = 5),
    edge!(0, PREPARE, 4, 0 = 6),
    edge!(0, ASK, 17, 0 = 7),
    edge!(0, CLOSE, 4, 0 = 8),
    edge!(0, TELL, 17, 0 = 9),
    edge!(0, ABORT, 4, 0 = 10),
    edge!(0, DELIVER, 3, 0 = 11),
    edge!(0, DROP, 3, 0 = 12),
    edge!(0, SWEEP, 2, 0 = 13),
    edge!(0, CRASH, 2, 0 = 14),
    edge!(0, RECOVER, 2, 0 = 15),
    edge!(0, RETIRE, 4, 0 = 16),
    edge!(0, RAW, 30),
    edge!(6, BY, 7),
    edge!(8, HOME, 9),
    edge!(10, SLOT, 11),
    edge!(12, QUIESCE, 13),
    edge!(14, RELEASE, 15),
    edge!(18, AT, 2),
    edge!(20, AT, 21),
    edge!(22, READ, 23, 2 = 0),
    edge!(22, WRITE, 27, 2 = 1),
    edge!(22, OPERATION, 26),
    edge!(23, OBJECT, 24),
    edge!(25, VALUE, 7),
    edge!(27, OBJECT, 28),
    edge!(29, VALUE, 7),
];

// What a number does, a row to a place; at some places none stands.
static SLOTS: [Option<Slot>; 31] = [
    None,
    None,
    // 2 a, 3 c, 4 h, and the line may end
    slot!(1, 1, 1),
    slot!(3, 1, 1),
    slot!(4, 2, 1),
    // 5 tick: a, by, u
    slot!(1, 1, 6),
    None,
    slot!(8, 4, 1),
    // 8 begin: home, a, slot, b, quiesce, u, release, v
    None,
    slot!(1, 1, 10),
    None,
    slot!(2, 1, 12),
    None,
    slot!(8, 4, 14),
    None,
    slot!(12, 4, 1),
    // 16 refresh: h, and on as begin does
    slot!(4, 2, 12),
    // 17 ask, tell: h, at, a
    slot!(4, 2, 18),
    None,
    // 19 invoke: h, at, a, and then read, write or operation
    slot!(4, 2, 20),
    None,
    slot!(1, 1, 22),
    None,
    // 23 read: object, c, and the line may end, or value, u
    None,
    slot!(3, 1, 25),
    None,
    // 26 operation: b; 27 write: object, c, value, u
    slot!(2, 1, 27),
    None,
    slot!(3, 1, 29),
    None,
    // 30 raw
    None,
];

// Row k of the words.
pub fn edge_of(k: usize) -> Edge
    requires { k < 31 }
    ensures { (result ≡ edge_of k) × IfSome result.says (λ s. s.field < 16) }
{
    EDGES[k]
}

// The first of these rows by which the word leads from this place.
// It takes a slice: over the table itself the check gives up at its 31 rows.
fn row_of(rows: &[Edge], node: u8, word: u64) -> Option<usize>
    ensures { result ≡ position (λ (e : Edge). eqb e.from node && eqb e.word word) rows.now }
{
    rows.iter().position(|e| e.from == node && e.word == word)
}

// The row of this word at this place, if it has one.
#[tactic(auto, using(crate::proofs::Rows::edge_found))]
pub fn edge_at(node: u8, word: u64) -> Option<usize>
    ensures { result ≡ cond (ltb (edge_at node word) 31) (Some (edge_at node word)) None }
{
    row_of(&EDGES, node, word)
}

// What a number does at this place, if one may stand here.
pub fn slot_at(node: u8) -> Option<Slot>
    ensures { (result ≡ cond (eqb (slot_at node).width 0) None (Some (slot_at node))) × IfSome result (λ s. s.field ≤ 12) }
{
    SLOTS.get(node as usize).copied().flatten()
}

// Where a line may end.
pub fn may_end(node: u8) -> bool
    ensures { result ≡ may_end node }
{
    matches!(node, 0 | 1 | 25)
}
