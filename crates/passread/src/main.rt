// A sheet on standard input, its records in words with their answers on standard output; with `--plain`, the words alone.
// Nothing else is decided here.
#![tactic(auto)]

ghost use Rattle.std.specs.Prelude.{◌≤◌, length};

use filling::fill;
use std::env::Env;
use std::io;
use std::io::Write;
use telling::{tell, tell_plain};

// Whether the first argument is `--plain`; a longer one is another word.
fn wants_plain(rt: &HostRuntime) -> bool {
    let mut word = [0u8; 7];
    match rt.arg(1, &mut word) {
        Ok(n) => n == 7 && word == *b"--plain",
        Err(_) => false,
    }
}

fn put_text(is_plain: bool, sheet: &[u8], out: &mut [u8; 524288]) -> usize
    ensures { result ≤ length out.new }
{
    if is_plain {
        return tell_plain(sheet, out);
    }
    tell(sheet, out)
}

fn main(rt: HostRuntime) -> io::Result<()> {
    let is_plain = wants_plain(&rt);
    // One byte more than the longest sheet, so that a longer one is seen to be longer.
    let mut sheet = [0u8; 65537];
    let mut out = [0u8; 524288];
    let n = fill(&mut rt.stdin(), &mut sheet)?;
    let k = put_text(is_plain, &sheet[..n], &mut out);
    rt.stdout().write_all(&out[..k])
}
