// A program's whole input, read into an array of its own.
#![tactic(auto)]

ghost use Rattle.std.specs.Prelude.{◌≤◌, ◌<◌, length, take, IfOk};
ghost use Rattle.std.specs.Io.KnownBytes.{Consumes, IsAtEnd};

use std::io;
use std::io::Read;

// Fills the array as far as the input goes; what it answers is how far that is.
// The array is lent whole: of one that is lent as a slice the check counts up to its length, and 524,289 is too long for that.
pub fn fill<R: Read, const N: usize>(input: &mut R, buf: &mut [u8; N]) -> io::Result<usize>
    ensures within { IfOk result (λ n. n ≤ length buf.new) }
    ensures bytes { IfOk result (λ n. Consumes (R.remaining input.old) (R.remaining input.new) (take n buf.new)) }
    ensures whole { IfOk result (λ n. n < length buf.new → IsAtEnd (R.remaining input.new)) }
{
    let room = &mut buf[..];
    let mut done = 0;
    while done < room.len() {
        let n = input.read(&mut room[done..])?;
        if n == 0 {
            break;
        }
        done += n;
    }
    Ok(done)
}

#[cfg(test)]
mod tests {
    use super::fill;
    use std::io;

    // No clause says that a read succeeds.
    #[test]
    fn fills_as_far_as_the_input_goes(rt: HostRuntime) -> io::Result<()> {
        let mut buf = [0u8; 4];
        let mut short: &[u8] = b"abc";
        assert_eq!(rt; fill(&mut short, &mut buf)?, 3);
        assert_eq!(rt; buf, *b"abc\0");
        let mut long: &[u8] = b"defgh";
        assert_eq!(rt; fill(&mut long, &mut buf)?, 4);
        assert_eq!(rt; buf, *b"defg");
        Ok(())
    }
}
