// Records from standard input.
use lists::first;
use record_format::Mark;
use record_order::{Came, Next};
use std::io;

// What the input brings next: a record, its end, or bytes that are no record. Three ways to go on: in the io::Result of a reading a further
// Result of an Option would be no plainer.
#[derive(Clone, Copy)]
pub enum Arrived {
    Record(Mark),
    End,
    Bad,
}

// A place for the longest record, and how much of a record stands there.
#[derive(Drop)]
pub struct Buffer {
    bytes: [u8; 4110],
    had: usize,
}

impl Buffer {
    pub fn empty() -> Buffer {
        Buffer {
            bytes: [0; 4110],
            had: 0,
        }
    }

    pub fn record(&self) -> &[u8] {
        first(&self.bytes, self.had)
    }

    // Reads n bytes more behind those that are there; the answer is how many came. None are read where the buffer has no place for them,
    // which no record asks for (`next-room`).
    fn more(&mut self, rt: &impl Input, n: usize) -> io::Result<usize> {
        let had = self.had;
        let bytes = &mut self.bytes[..];
        if had > bytes.len() || n > bytes.len() - had {
            return Ok(0);
        }
        let got = terminal::read_full(rt, &mut bytes[had..had + n])?;
        self.had = had.saturating_add(got);
        Ok(got)
    }

    // The next record, whole. A mark is read, then what tells the size, then the rest: no more than three parts.
    pub fn arrive(&mut self, rt: &impl Input, came: Came) -> io::Result<Arrived> {
        self.had = 0;
        for _ in 0..4 {
            match record_order::judge(came, self.record()) {
                Ok(Next::Read(n)) => {
                    if self.more(rt, n)? < n {
                        return Ok(if self.had == 0 {
                            Arrived::End
                        } else {
                            Arrived::Bad
                        });
                    }
                }
                Ok(Next::Whole(mark)) => return Ok(Arrived::Record(mark)),
                Err(_) => return Ok(Arrived::Bad),
            }
        }
        Ok(Arrived::Bad)
    }
}
