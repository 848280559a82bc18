// Numbers out of the standard input: hexadecimal digits of lower case, and one space or one new line after each number.
use std::io;

// What stands in a list as 64 bits: a number as it is, a word, and a float by its bits.
pub trait Number: Copy {
    fn of(bits: u64) -> Self;

    fn bits(self) -> u64;
}

impl Number for u64 {
    fn of(bits: u64) -> u64 {
        bits
    }

    fn bits(self) -> u64 {
        self
    }
}

impl Number for u32 {
    fn of(bits: u64) -> u32 {
        (bits % 4294967296) as u32
    }

    fn bits(self) -> u64 {
        u64::from(self)
    }
}

impl Number for f64 {
    fn of(bits: u64) -> f64 {
        float::of_bits(bits)
    }

    fn bits(self) -> u64 {
        float::to_bits(self)
    }
}

fn digit(c: u8) -> u64 {
    let code = u64::from(c);
    (code % 16 + code / 64 * 9) % 16
}

// A text of so many bytes at the start of a buffer, and where its next number starts. A text that is too short is read on behind its end,
// so that it does not end where its last number does.
#[derive(Clone, Copy)]
pub struct Reader<'a> {
    buffer: &'a [u8],
    size: usize,
    at: usize,
}

impl Reader<'_> {
    // At the start of a text.
    pub fn over(buffer: &[u8], size: usize) -> Reader<'_> {
        Reader {
            buffer,
            size,
            at: 0,
        }
    }

    // Whether the text ends here.
    pub fn ends(&self) -> bool {
        self.at == self.size
    }

    // The next number; zero past the end of the buffer.
    pub fn number(&mut self) -> u64 {
        let buffer = self.buffer;
        let mut value = 0;
        for i in self.at..buffer.len() {
            let c = buffer[i];
            if c <= b' ' {
                self.at = i + 1;
                return value;
            }
            value = (value << 4) | digit(c);
        }
        self.at = self.at.max(buffer.len());
        value
    }

    // The same of a size.
    pub fn size(&mut self) -> usize {
        self.number() as usize
    }

    // So many numbers, as far as `to` has room.
    pub fn numbers<T: Number>(&mut self, count: usize, to: &mut [T]) {
        for place in to.iter_mut().take(count) {
            *place = T::of(self.number());
        }
    }
}

// The number of 8 digits that stands next in the input, as a list and each of its records begin.
pub fn length(rt: &impl Input) -> io::Result<u64> {
    let mut text = [0u8; 9];
    terminal::read_full(rt, &mut text)?;
    Ok(Reader::over(&text, 9).number())
}

// The next record of a list, after the number of its bytes; the answer is how many were read. A record for which `text` is too short
// is not read.
pub fn record(rt: &impl Input, text: &mut [u8]) -> io::Result<usize> {
    let size = length(rt)? as usize;
    if size > text.len() {
        return Ok(0);
    }
    terminal::read_full(rt, &mut text[..size])
}
