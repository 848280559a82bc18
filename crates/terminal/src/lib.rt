// How programs read: bytes into a buffer that is lent, as many as it has room for.
#![tactic(auto)]

ghost use Rattle.std.specs.Prelude.{◌<◌, ◌≤◌, length, take, IfOk};
ghost use Rattle.std.specs.Io.KnownBytes.{Consumes, IsAtEnd};

use std::io::{self, Read};

// Reads until the buffer is full or the reader has nothing more. The answer is how many bytes came; they stand at the start of the buffer.
pub fn fill<R: Read>(reader: &mut R, buffer: &mut [u8]) -> io::Result<usize>
    ensures bound { IfOk result (λ n. n ≤ length buffer.new) }
    ensures bytes { IfOk result (λ n. Consumes (R.remaining reader.old) (R.remaining reader.new) (take n buffer.new)) }
    ensures end { IfOk result (λ n. n < length buffer.new → IsAtEnd (R.remaining reader.new)) }
{
    let mut at = 0;
    // A while: how far a turn goes is what the reader gave.
    while at < buffer.len() {
        let n = reader.read(&mut buffer[at..])?;
        if n == 0 {
            return Ok(at);
        }
        at += n;
    }
    Ok(at)
}

// The same of the standard input.
pub fn read_full(rt: &impl Input, buffer: &mut [u8]) -> io::Result<usize>
    ensures { IfOk result (λ n. n ≤ length buffer.new) }
{
    let mut reader = rt.reader();
    fill(&mut reader, buffer)
}

#[cfg(test)]
mod tests {
    use super::*;
    use std::test::Fail;

    // A reader gives what it has, and then nothing.
    #[test]
    fn fills_until_the_end(rt: HostRuntime) -> Result<(), Fail> {
        let mut reader = b"seven b".as_slice();
        let mut buffer = [b'.'; 5];
        assert_eq!(rt; fill(&mut reader, &mut buffer)?, 5);
        assert_eq!(rt; buffer, *b"seven");
        assert_eq!(rt; fill(&mut reader, &mut buffer)?, 2);
        assert_eq!(rt; buffer, *b" bven");
        assert_eq!(rt; fill(&mut reader, &mut buffer)?, 0);
        Ok(())
    }
}
