// Two width lists and a sheet, by their files' names, and the words of a request in one argument; what the check says on standard output.
// Nothing else is decided here.
#![tactic(auto)]

ghost use Rattle.std.specs.Prelude.{◌≤◌, length, IfOk};

use filling::fill;
use reporting::report;
use std::env::Env;
use std::io::{ErrorKind, Write};
use std::{fs, io};

// The file that argument i names, at the front of the array: all of it, or as much as there is room for.
fn take<const N: usize>(rt: &HostRuntime, i: usize, buf: &mut [u8; N]) -> io::Result<usize>
    ensures { IfOk result (λ n. n ≤ length buf.new) }
{
    let mut path = [0u8; 4096];
    let k = rt.arg(i, &mut path).map_err(|_| ErrorKind::NotFound)?;
    let name = str::from_utf8(&path[..k]).map_err(|_| ErrorKind::NotFound)?;
    fill(&mut fs::open(rt, name)?, buf)
}

fn main(rt: HostRuntime) -> io::Result<()> {
    // One byte more than the longest of each, so that a longer one is seen to be longer.
    let mut station = [0u8; 16385];
    let mut company = [0u8; 16385];
    let mut sheet = [0u8; 65537];
    let mut text = [0u8; 65537];
    let mut out = [0u8; 262144];
    let s = take(&rt, 1, &mut station)?;
    let c = take(&rt, 2, &mut company)?;
    let n = take(&rt, 3, &mut sheet)?;
    // A longer one has no bytes here, and so is not read.
    let k = rt.arg(4, &mut text).unwrap_or(0);
    let m = report(
        &text[..k],
        &station[..s],
        &company[..c],
        &sheet[..n],
        &mut out,
    );
    rt.stdout().write_all(&out[..m])
}
