// What is written: words, numbers and bytes.
ghost use Rattle.std.specs.Prelude.{◌<◌, ◌≤◌, length, Some};
ghost use Rattle.lines.specs.Shown.{Shown};

use plan::Plan;
use std::fmt::{Display, Formatter};
use std::io::Write;
use std::{fmt, io, str};

// Where answers are written. The first write that fails is kept, and nothing is written behind it.
// Stays: what was written is kept beside the writer. With a Result and `?` in each function, those that cannot fail could.
#[derive(Drop)]
pub struct Output<W> {
    writer: W,
    written: io::Result<()>,
}

impl<W: Write + Drop> Output<W> {
    pub fn new(writer: W) -> Output<W> {
        Output {
            writer,
            written: Ok(()),
        }
    }

    // The failure that was kept, if there is one.
    pub fn finish(self) -> io::Result<()> {
        self.written
    }
}

impl<W: Write> Output<W> {
    // Writes bytes as they stand.
    pub fn text(&mut self, words: &[u8])
        ensures { Shown W.contents (Some words.now) self.old self.new }
    {
        if self.written.is_ok() {
            self.written = self.writer.write_all(words);
        }
    }

    // Writes what a format makes.
    pub fn print<D: Display + Drop>(&mut self, words: D)
        ensures { Shown W.contents (D.output words) self.old self.new }
    {
        if self.written.is_ok() {
            self.written = write!(self.writer, "{words}");
        }
    }
}

// Bytes as numbers, a space before each.
#[derive(Clone, Copy)]
pub struct Row<'a>(pub &'a [u8]);

impl Display for Row<'_> {
    fn fmt<W: fmt::Write>(&self, f: &mut Formatter<W>) -> fmt::Result {
        for b in self.0 {
            write!(f, " {b}")?;
        }
        Ok(())
    }
}

// A plan's items: the blocks that it reads, each with its coefficient, a space before each.
#[derive(Clone, Copy)]
pub struct Items<'a>(pub &'a Plan);

impl Display for Items<'_> {
    fn fmt<W: fmt::Write>(&self, f: &mut Formatter<W>) -> fmt::Result {
        let plan = self.0;
        for (b, c) in plan.block.iter().zip(&plan.coef).take(plan.reads) {
            write!(f, " {b}*{c}")?;
        }
        Ok(())
    }
}

// The checksum of bytes that are too many to be listed.
fn checksum(bytes: &[u8]) -> u64 {
    let mut c = 1;
    for b in bytes {
        c = (c * 257 + u64::from(*b)) % 4294967291;
    }
    c
}

// The hexadecimal digit of x modulo 16, in small letters.
fn digit(x: u8) -> u8
    ensures { result < 128 }
{
    let d = x % 16;
    if d < 10 { b'0' + d } else { b'a' - 10 + d }
}

// A space, and two digits for each byte.
fn digits<'a>(bytes: &[u8], out: &'a mut [u8; 129]) -> &'a str
    requires { length bytes.now ≤ 64 }
{
    *out = [b' '; 129];
    for (i, b) in bytes.iter().enumerate() {
        out[2 * i + 1] = digit(*b / 16);
        out[2 * i + 2] = digit(*b);
    }
    str::from_utf8(&out[..2 * bytes.len() + 1]).unwrap()
}

// Bytes behind a space, or what stands for them: two digits for each byte, `-` for none, and a checksum for more than 64.
#[derive(Clone, Copy)]
pub struct Bytes<'a>(pub &'a [u8]);

impl Display for Bytes<'_> {
    fn fmt<W: fmt::Write>(&self, f: &mut Formatter<W>) -> fmt::Result {
        let bytes = self.0;
        match bytes.len() {
            0 => f.write_str(" -"),
            1..=64 => {
                let mut out = [0; 129];
                f.write_str(digits(bytes, &mut out))
            }
            _ => {
                let c = checksum(bytes);
                write!(f, " #{c}")
            }
        }
    }
}
