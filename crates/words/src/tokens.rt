// What a line is made of: words, each by its number, and numbers.
#[derive(Clone, Copy)]
pub enum Token {
    Word(u64),
    Number(u64),
}
