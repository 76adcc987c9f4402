// Words and numbers, one after the other.
ghost use Rattle.std.specs.Prelude.{◌+◌, ◌*◌, ◌∷◌, ◌++◌, length};
ghost use Rattle.buffer.specs.Page.{HasRoom, Writes};
ghost use Rattle.words.specs.Say.{word_text, token_text, rest_text};

use buffer::Page;
use words::tokens::Token;

// A space, and a word or a number.
fn put_token(page: &mut Page<'_>, t: Token)
    requires { HasRoom page.old 11 }
    ensures { Writes page.old page.new (32 ∷ token_text t) }
{
    page.put_byte(b' ');
    match t {
        Token::Word(w) => page.put_letters(9, w),
        Token::Number(n) => page.put_digits(10, n),
    }
}

// A word, and each of the rest after a space.
pub(crate) fn put_tokens(page: &mut Page<'_>, first: u64, rest: &[Token])
    requires { HasRoom page.old (9 + 11 * length rest.now) }
    ensures { Writes page.old page.new (word_text first ++ rest_text rest.now) }
{
    page.put_letters(9, first);
    for t in rest {
        put_token(page, *t);
    }
}
