// Runs the worked examples of document 01. Each line of standard input is a question: a letter, then bytes, each a space and two hex digits. What
// comes out is compared with answers that were written by hand from document 01.
//   #        writes the line as it stands
//   N bytes  reads the bytes as a note: its k and n, or the refusal and the offset
//   R block  the block's row in the last layout that was accepted
//   H block  the number of the group that is its home, the top being 0
//   P block marks  the block's plan at L = 1, as block*coefficient, or the refusal
//   C storage reads  the price under two limits, each a number of quarters, FE for infinity, FF for not a number; figures in quarters
//   V block marks  the survivors in the order in which the block's plan visits them; the bytes of the marks come lowest first
#![tactic(auto)]

ghost use Rattle.std.specs.Prelude.{◌<◌, ◌≤◌, length};
ghost use Rattle.given.specs.Given.{Given};

use groups::Layout;
use lines::figure::numerator;
use lines::show::{Items, Output, Row};
use lines::{fields, notes, source};
use plan::Standing;
use price::{Limits, Price};
use std::io;
use std::io::Write;

// The value of a hex digit in capitals; of anything else 0.
// Stays: by hand, since `to_digit` takes small letters too.
fn digit(c: u8) -> u8
    ensures { result < 16 }
{
    match c {
        b'0'..=b'9' => c - b'0',
        b'A'..=b'F' => c - b'A' + 10,
        _ => 0,
    }
}

// Puts the bytes of a line into out, as many as fit, and answers these.
fn parse<'a>(line: &[u8], out: &'a mut [u8; 128]) -> &'a [u8]
    ensures { length result.now ≤ 128 }
{
    let digits = fields::from(line, 1).chunks_exact(3);
    let n = digits.len().min(128);
    for (x, pair) in out.iter_mut().zip(digits) {
        if let [_, high, low] = pair {
            *x = digit(*high) * 16 + digit(*low);
        }
    }
    &out[..n]
}

// Stays: here and in the two functions below Given is asked for and is no ghost field. It holds a note and is no proposition, so that the check refuses
// the field, and from ∥ Given l ∥₁ the Given that rows and visits ask for does not come back.
// The first k bytes of the block's row; nothing for a number that no row has.
fn ask_row<W: Write>(to: &mut Output<W>, l: Layout, b: u8)
    requires { Given l }
{
    to.print(format_args!("row {b}"));
    let mut matrix = [0u8; 1536];
    rows::matrix(l, &mut matrix);
    if let Some(bytes) = matrix.chunks_exact(32).nth(usize::from(b)) {
        let row = Row(bytes.get(..l.k).unwrap_or(bytes));
        to.print(format_args!("{row}\n"));
    }
}

fn ask_home<W: Write>(to: &mut Output<W>, l: Layout, b: u8)
    requires { Given l }
{
    let g = rows::home_of(l, usize::from(b));
    to.print(format_args!("home {b} group {g}\n"));
}

fn ask_visits<W: Write>(to: &mut Output<W>, l: Layout, b: u8, lost: u64)
    requires { Given l }
{
    let v = visits::visit(l, lost, usize::from(b));
    let blocks = v.blocks;
    let row = Row(blocks.get(..v.count).unwrap_or(&blocks));
    to.print(format_args!("visits of {b}{row}\n"));
}

fn ask_plan<W: Write>(to: &mut Output<W>, l: Layout, b: u8, lost: u64) {
    match plan::plan_of(l, Standing { len: 1, lost }, usize::from(b)) {
        Ok(p) => {
            let items = Items(&p);
            to.print(format_args!("plan of {b}{items}\n"));
        }
        Err(e) => {
            let m = e.number();
            to.print(format_args!("plan of {b} refused {m}\n"));
        }
    }
}

// A limit of q quarters, an infinity or not a number.
fn limit(q: u8) -> f64 {
    match q {
        254 => f64::INFINITY,
        255 => f64::NAN,
        _ => f64::from(q) / 4.0,
    }
}

// A figure's number of quarters.
fn quarters(x: f64) -> u32 {
    numerator(x, 4).unwrap_or(2048)
}

fn ask_price<W: Write>(to: &mut Output<W>, l: Layout, s: u8, r: u8) {
    let limits = Limits {
        storage: limit(s),
        reads: limit(r),
    };
    match price::price_of(l, limits) {
        Ok(Price::Fits { storage, reads }) => {
            let s = quarters(storage);
            let r = quarters(reads);
            to.print(format_args!("fits, storage {s} reads {r}\n"));
        }
        Ok(Price::TooLarge(storage)) => {
            let s = quarters(storage);
            to.print(format_args!("too large, storage {s}\n"));
        }
        Ok(Price::TooManyReads(reads)) => {
            let r = quarters(reads);
            to.print(format_args!("too many reads, {r}\n"));
        }
        Err(e) => {
            let m = e.number();
            to.print(format_args!("refused {m}\n"));
        }
    }
}

// The questions that leave the layout as it is; the marks stand behind the block.
fn ask_about<W: Write>(to: &mut Output<W>, letter: u8, bytes: &[u8], l: Layout) {
    let b = fields::at(bytes, 0);
    let lost = fields::word(bytes, 1);
    match letter {
        b'P' => ask_plan(to, l, b, lost),
        b'C' => ask_price(to, l, b, fields::at(bytes, 1)),
        // only a layout of a note has an answer to these
        b'R' | b'H' | b'V' if !given::known(l) => {}
        b'R' => ask_row(to, l, b),
        b'H' => ask_home(to, l, b),
        b'V' => ask_visits(to, l, b, lost),
        _ => to.text(b"no such question\n"),
    }
}

// Asks with the bytes of a line. A note that is accepted changes the layout.
fn ask_with<W: Write>(to: &mut Output<W>, letter: u8, line: &[u8], l: &mut Layout) {
    let mut space = [0; 128];
    let bytes = parse(line, &mut space);
    if letter == b'N' {
        *l = notes::read(to, bytes, *l, b"accepted k ", b"refused ");
    } else {
        ask_about(to, letter, bytes, *l);
    }
}

// A line's answer; an empty line has none.
fn ask<W: Write>(to: &mut Output<W>, line: &[u8], l: &mut Layout) {
    match line.first() {
        None => {}
        Some(b'#') => {
            to.text(line);
            to.text(b"\n");
        }
        Some(letter) => ask_with(to, *letter, line, l),
    }
}

// Asks line after line; a last line that is not ended by a newline is asked too. Behind one that is stands an empty line.
fn each<W: Write>(to: &mut Output<W>, s: &[u8]) {
    let mut l = Layout::default();
    for line in s.split(|c| *c == b'\n') {
        ask(to, line, &mut l);
    }
}

// Stays: the two programs that ask one thing after another have this main. A shared one would take `each` as a closure, and say no less.
fn main(rt: HostRuntime) -> io::Result<()> {
    let mut buf = [0u8; 65536];
    let n = source::read_full(&mut rt.stdin(), &mut buf)?;
    let mut to = Output::new(io::writer(&rt));
    each(&mut to, &buf[..n]);
    to.finish()
}
