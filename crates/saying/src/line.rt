// The line of a record.
ghost use Rattle.std.specs.Prelude.{◌<◌, [], ◌∷◌, ◌++◌, ◌≡◌};
ghost use Rattle.buffer.specs.Page.{HasRoom, Writes};
ghost use Rattle.words.specs.Grammar.{invoke_word, at_word};
ghost use Rattle.words.specs.declared.tokens.Token.{Token};
ghost use Rattle.words.specs.Say.{word_text, rest_text, operation_tokens, step_text, hex_digit, hex_text, raw_text, record_text};

use crate::tokens::put_tokens;
use buffer::Page;
use records::read_record;
use rules::steps::Step;
use words::tokens::Token;
use words::vocabulary::{
    ABORT, ASK, AT, BEGIN, BY, CLOSE, CRASH, DELIVER, DROP, HOME, INVOKE, OBJECT, OPERATION,
    PREPARE, QUIESCE, RAW, READ, RECOVER, REFRESH, RELEASE, RETIRE, SLOT, SWEEP, TELL, TERMINATE,
    TICK, VALUE, WRITE,
};

// invoke: a read's value is said where it is not 0.
#[tactic(auto, unfolding(words::specs::Say::step_text))]
fn put_invoke(page: &mut Page<'_>, handle: u16, site: u8, write: u8, object: u8, value: u32)
    requires { HasRoom page.old 108 }
    ensures { Writes page.old page.new (word_text invoke_word ++ rest_text (Token.Number handle ∷ Token.Word at_word ∷ Token.Number site ∷ operation_tokens write object value)) }
{
    match (write, value) {
        (1, _) => put_tokens(
            page,
            INVOKE,
            &[
                Token::Number(u64::from(handle)),
                Token::Word(AT),
                Token::Number(u64::from(site)),
                Token::Word(WRITE),
                Token::Word(OBJECT),
                Token::Number(u64::from(object)),
                Token::Word(VALUE),
                Token::Number(u64::from(value)),
            ],
        ),
        (0, 0) => put_tokens(
            page,
            INVOKE,
            &[
                Token::Number(u64::from(handle)),
                Token::Word(AT),
                Token::Number(u64::from(site)),
                Token::Word(READ),
                Token::Word(OBJECT),
                Token::Number(u64::from(object)),
            ],
        ),
        (0, _) => put_tokens(
            page,
            INVOKE,
            &[
                Token::Number(u64::from(handle)),
                Token::Word(AT),
                Token::Number(u64::from(site)),
                Token::Word(READ),
                Token::Word(OBJECT),
                Token::Number(u64::from(object)),
                Token::Word(VALUE),
                Token::Number(u64::from(value)),
            ],
        ),
        _ => put_tokens(
            page,
            INVOKE,
            &[
                Token::Number(u64::from(handle)),
                Token::Word(AT),
                Token::Number(u64::from(site)),
                Token::Word(OPERATION),
                Token::Number(u64::from(write)),
                Token::Word(OBJECT),
                Token::Number(u64::from(object)),
                Token::Word(VALUE),
                Token::Number(u64::from(value)),
            ],
        ),
    }
}

// The words of a step.
#[tactic(auto, unfolding(words::specs::Say::step_text))]
pub fn put_step(page: &mut Page<'_>, s: Step)
    requires { HasRoom page.old 108 }
    ensures { Writes page.old page.new (step_text s) }
{
    match s {
        Step::Tick { site, n } => put_tokens(
            page,
            TICK,
            &[
                Token::Number(u64::from(site)),
                Token::Word(BY),
                Token::Number(u64::from(n)),
            ],
        ),
        Step::Begin {
            home,
            slot,
            quiesce,
            release,
        } => put_tokens(
            page,
            BEGIN,
            &[
                Token::Word(HOME),
                Token::Number(u64::from(home)),
                Token::Word(SLOT),
                Token::Number(u64::from(slot)),
                Token::Word(QUIESCE),
                Token::Number(u64::from(quiesce)),
                Token::Word(RELEASE),
                Token::Number(u64::from(release)),
            ],
        ),
        Step::Invoke {
            handle,
            site,
            write,
            object,
            value,
        } => put_invoke(page, handle, site, write, object, value),
        Step::Refresh {
            handle,
            quiesce,
            release,
        } => put_tokens(
            page,
            REFRESH,
            &[
                Token::Number(u64::from(handle)),
                Token::Word(QUIESCE),
                Token::Number(u64::from(quiesce)),
                Token::Word(RELEASE),
                Token::Number(u64::from(release)),
            ],
        ),
        Step::Terminate { handle } => put_tokens(
            page,
            TERMINATE,
            &[Token::Number(u64::from(handle))],
        ),
        Step::Prepare { handle } => put_tokens(page, PREPARE, &[Token::Number(u64::from(handle))]),
        Step::Ask { handle, site } => put_tokens(
            page,
            ASK,
            &[
                Token::Number(u64::from(handle)),
                Token::Word(AT),
                Token::Number(u64::from(site)),
            ],
        ),
        Step::Close { handle } => put_tokens(page, CLOSE, &[Token::Number(u64::from(handle))]),
        Step::Tell { handle, site } => put_tokens(
            page,
            TELL,
            &[
                Token::Number(u64::from(handle)),
                Token::Word(AT),
                Token::Number(u64::from(site)),
            ],
        ),
        Step::Abort { handle } => put_tokens(page, ABORT, &[Token::Number(u64::from(handle))]),
        Step::Deliver { message } => put_tokens(
            page,
            DELIVER,
            &[Token::Number(u64::from(message))],
        ),
        Step::Drop { message } => put_tokens(page, DROP, &[Token::Number(u64::from(message))]),
        Step::Sweep { site } => put_tokens(page, SWEEP, &[Token::Number(u64::from(site))]),
        Step::Crash { site } => put_tokens(page, CRASH, &[Token::Number(u64::from(site))]),
        Step::Recover { site } => put_tokens(page, RECOVER, &[Token::Number(u64::from(site))]),
        Step::Retire { handle } => put_tokens(page, RETIRE, &[Token::Number(u64::from(handle))]),
    }
}

fn hex_digit(d: u8) -> u8
    requires { d < 16 }
    ensures { result ≡ hex_digit d }
{
    if d < 10 { 48 + d } else { 87 + d }
}

// A byte in hex.
#[tactic(auto, unfolding(words::specs::Say::hex_text))]
fn put_hex(page: &mut Page<'_>, b: u8)
    requires { HasRoom page.old 2 }
    ensures { Writes page.old page.new (hex_text (b ∷ [])) }
{
    page.put_byte(hex_digit(b / 16));
    page.put_byte(hex_digit(b % 16));
}

// The digits of sixteen bytes, two to a byte, on a page of their own.
fn fill_hex(digits: &mut [u8; 32], bytes: [u8; 16])
    ensures { digits.new ≡ hex_text bytes }
{
    let mut page = Page::new(digits);
    for b in &bytes {
        put_hex(&mut page, *b);
    }
}

// The digits go over at once: each of them put behind the text by itself takes three times as long.
fn put_bytes(page: &mut Page<'_>, bytes: [u8; 16])
    requires { HasRoom page.old 32 }
    ensures { Writes page.old page.new (hex_text bytes) }
{
    let mut digits = [0; 32];
    fill_hex(&mut digits, bytes);
    page.put_text(&digits);
}

// `raw` and sixteen bytes.
#[tactic(auto, using(words::proofs::TextLaws::letters_length), unfolding(words::specs::Say::raw_text))]
fn put_raw(page: &mut Page<'_>, bytes: [u8; 16])
    requires { HasRoom page.old 108 }
    ensures { Writes page.old page.new (raw_text bytes) }
{
    page.put_letters(9, RAW);
    page.put_byte(b' ');
    put_bytes(page, bytes);
}

// The line of a record, without its newline.
#[tactic(auto, unfolding(words::specs::Say::record_text))]
pub fn put_record(page: &mut Page<'_>, bytes: [u8; 16])
    requires { HasRoom page.old 108 }
    ensures { Writes page.old page.new (record_text bytes) }
{
    match read_record(bytes) {
        None => put_raw(page, bytes),
        Some(s) => put_step(page, s),
    }
}
