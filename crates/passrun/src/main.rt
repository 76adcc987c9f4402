// A sheet on standard input, its listing on standard output. Nothing is decided here.
#![tactic(auto)]

use filling::fill;
use listing::list;
use std::io;
use std::io::Write;

fn main(rt: HostRuntime) -> io::Result<()> {
    // One byte more than the longest sheet, so that a longer one is seen to be longer.
    let mut sheet = [0u8; 65537];
    let mut out = [0u8; 262144];
    let n = fill(&mut rt.stdin(), &mut sheet)?;
    let k = list(&sheet[..n], &mut out);
    rt.stdout().write_all(&out[..k])
}
