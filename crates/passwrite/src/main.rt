// Words on standard input, a sheet on standard output, or the line that names what is wrong. Nothing is decided here.
#![tactic(auto)]

use filling::fill;
use reading::put_sheet;
use std::io;
use std::io::Write;

fn main(rt: HostRuntime) -> io::Result<()> {
    // One byte more than the longest text, so that a longer one is seen to be longer.
    let mut text = [0u8; 524289];
    let mut out = [0u8; 65536];
    let n = fill(&mut rt.stdin(), &mut text)?;
    let k = put_sheet(&text[..n], &mut out);
    rt.stdout().write_all(&out[..k])
}
