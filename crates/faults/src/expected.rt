// What was expected, read off the grammar's two tables.
ghost use Rattle.std.specs.Prelude.{◌+◌, ◌≤◌, ◌<◌, ◌≡◌, count_by, eqb, length};
ghost use Rattle.words.specs.declared.rows.Edge.{Edge};
ghost use Rattle.buffer.specs.Page.{HasRoom, Writes};
ghost use Rattle.words.specs.Faults.{choices_up_to, choice_count, separator, choice_text, choices_text, nothing_text, expected_at};

use buffer::Page;
use grammar::{EDGES, edge_of, may_end, slot_at};
use words::rows::{EDGE_COUNT, Edge, RAW_NODE};

// How many of these rows lead on from this place.
// It takes a slice: over the table itself the check gives up at its 31 rows.
fn leading(rows: &[Edge], node: u8) -> usize
    ensures { (result ≡ count_by (λ (e : Edge). eqb e.from node) rows.now) × (result ≤ length rows.now) }
{
    rows.iter().filter(|e| e.from == node).count()
}

// How many of the first n words lead on from this place.
#[tactic(auto, using(crate::proofs::Choices::choices_counted))]
fn choices_up_to(node: u8, n: usize) -> usize
    requires { n ≤ 31 }
    ensures { (result ≡ choices_up_to node n) × (result ≤ n) }
{
    leading(&EDGES[..n], node)
}

// The words that lead on, and nothing where the line may end.
fn choice_count(node: u8) -> usize
    ensures { result ≡ choice_count node }
{
    let words = choices_up_to(node, EDGE_COUNT);
    if may_end(node) { words + 1 } else { words }
}

// What stands before a choice that has so many before it.
fn put_separator(page: &mut Page<'_>, before: usize, count: usize)
    requires { HasRoom page.old 4 × (before ≤ 31) }
    ensures { Writes page.old page.new (separator before count) }
{
    if before == 0 {
        return;
    }
    if before + 1 == count {
        page.put_text(b" or ");
    } else {
        page.put_text(b", ");
    }
}

// The word of row k, if it leads on from this place.
#[tactic(auto, using(crate::proofs::Choices::separator_length))]
fn put_choice(page: &mut Page<'_>, node: u8, k: usize)
    requires { HasRoom page.old 13 × (k < 31) }
    ensures { Writes page.old page.new (choice_text node k) }
{
    let e = edge_of(k);
    if e.from == node {
        put_separator(page, choices_up_to(node, k), choice_count(node));
        page.put_letters(9, e.word);
    }
}

fn put_choices(page: &mut Page<'_>, node: u8)
    requires { HasRoom page.old 403 }
    ensures { Writes page.old page.new (choices_text node 31) × (page.new.len ≤ page.old.len + 403) }
{
    for k in 0..EDGE_COUNT {
        put_choice(page, node, k);
    }
}

#[tactic(auto, using(crate::proofs::Choices::separator_length))]
fn put_nothing(page: &mut Page<'_>, node: u8)
    requires { HasRoom page.old 11 }
    ensures { Writes page.old page.new (nothing_text node) × (page.new.len ≤ page.old.len + 11) }
{
    if may_end(node) {
        let before = choices_up_to(node, EDGE_COUNT);
        put_separator(page, before, before + 1);
        page.put_text(b"nothing");
    }
}

// What is expected at this place of the grammar.
#[tactic(auto, unfolding(words::specs::Faults::expected_at))]
pub(crate) fn put_expected_at(page: &mut Page<'_>, node: u8)
    requires { HasRoom page.old 414 }
    ensures { Writes page.old page.new (expected_at node) × (page.new.len ≤ page.old.len + 414) }
{
    if node == 0 {
        page.put_text(b"a step");
    } else if node == RAW_NODE {
        page.put_text(b"32 hex digits");
    } else if slot_at(node).is_some() {
        page.put_text(b"a number");
    } else {
        put_choices(page, node);
        put_nothing(page, node);
    }
}
