// What is kept from command to command, and what each command makes of it.
ghost use Rattle.std.specs.Prelude.{◌≡◌};
ghost use Rattle.drill.specs.Room.{Leaves, Same};

use crate::buffer::Buffer;
use crate::{altered, junk};
use groups::Layout;
use lines::figure::{Fraction, limit};
use lines::notes;
use lines::show::{Bytes, Items, Output};
use plan::{Refusal, Standing};
use price::{Limits, Price};
use repairs::Unrebuilt;
use script::commands::Command;
use std::fmt;
use std::fmt::{Display, Formatter};
use std::io::Write;

#[derive(Drop)]
pub struct Kept {
    layout: Layout,
    standing: Standing,
    stripe: Buffer<49152>,
    spare: Buffer<2048>,
}

// The standing, the stripe and the spare, as they end a line.
impl Display for Kept {
    fn fmt<W: fmt::Write>(&self, f: &mut Formatter<W>) -> fmt::Result {
        let held = Held(self);
        let spare = Bytes(self.spare.part());
        write!(f, "{held}{spare}")
    }
}

// The standing and the stripe alone.
#[derive(Clone, Copy)]
struct Held<'a>(&'a Kept);

impl Display for Held<'_> {
    fn fmt<W: fmt::Write>(&self, f: &mut Formatter<W>) -> fmt::Result {
        let kept = self.0;
        let Standing { len, lost } = kept.standing;
        let stripe = Bytes(kept.stripe.part());
        write!(f, "{len} {lost}{stripe}")
    }
}

// What a call answers: 0, or its refusal's number.
fn number<T: Drop>(answer: Result<T, Refusal>) -> u8 {
    answer.map_or_else(Refusal::number, |_| 0)
}

impl Kept {
    // What is kept at the start; the layout is the blank one.
    pub fn new() -> Kept
        ensures { (result.stripe.used.number ≡ 0) × (result.spare.used.number ≡ 0) }
    {
        Kept {
            layout: Layout::default(),
            standing: Standing { len: 1, lost: 0 },
            stripe: Buffer::new(),
            spare: Buffer::new(),
        }
    }

    // The standing after a call, which is as it was where the call is refused, and the number of the answer.
    fn stand(&mut self, answer: Result<Standing, Refusal>) -> u8
        ensures { Same self.old self.new }
    {
        self.standing = answer.unwrap_or(self.standing);
        number(answer)
    }

    fn encode<W: Write>(&mut self, to: &mut Output<W>)
        ensures { Same self.old self.new }
    {
        let n = self.stripe.used.number;
        let room = &mut self.stripe.bytes[..];
        let r = stripe::encode_by(self.layout, self.standing, &mut room[..n]);
        let a = self.stand(r);
        let held = Held(self);
        to.print(format_args!("encode {a} {held}\n"));
    }

    fn lose<W: Write>(&mut self, to: &mut Output<W>, b: usize)
        ensures { Same self.old self.new }
    {
        let a = self.stand(stripe::lose_by(self.layout, self.standing, b));
        let Standing { len, lost } = self.standing;
        to.print(format_args!("lose {b} {a} {len} {lost}\n"));
    }

    fn plan<W: Write>(&self, to: &mut Output<W>, b: usize) {
        match plan::plan_of(self.layout, self.standing, b) {
            Ok(p) => {
                let items = Items(&p);
                to.print(format_args!("plan {b} 0{items}\n"));
            }
            Err(e) => {
                let m = e.number();
                to.print(format_args!("plan {b} {m}\n"));
            }
        }
    }

    fn repair<W: Write>(&mut self, to: &mut Output<W>, b: usize)
        ensures { Same self.old self.new }
    {
        let n = self.stripe.used.number;
        let room = &mut self.stripe.bytes[..];
        let r = repairs::repair_by(self.layout, self.standing, &mut room[..n], b);
        let a = self.stand(r);
        let held = Held(self);
        to.print(format_args!("repair {b} {a} {held}\n"));
    }

    fn rebuild<W: Write>(&mut self, to: &mut Output<W>)
        ensures { Same self.old self.new }
    {
        let n = self.stripe.used.number;
        let room = &mut self.stripe.bytes[..];
        let r = repairs::rebuild_by(self.layout, self.standing, &mut room[..n]);
        self.standing = r.unwrap_or(self.standing);
        let held = Held(self);
        match r {
            Ok(_) => to.print(format_args!("rebuild 0 {held}\n")),
            Err(Unrebuilt::Refused(e)) => {
                let m = e.number();
                to.print(format_args!("rebuild {m} {held}\n"));
            }
            // the number of `NoPlan`, written with the words
            Err(Unrebuilt::NoPlan(b)) => to.print(format_args!("rebuild 14@{b} {held}\n")),
        }
    }

    fn correct<W: Write>(&mut self, to: &mut Output<W>, i: usize, off: usize, diff: &[u8])
        ensures { Same self.old self.new }
    {
        let n = self.stripe.used.number;
        let room = &mut self.stripe.bytes[..];
        let a = number(correct::correct_by(
            self.layout,
            self.standing,
            &mut room[..n],
            i,
            off,
            diff,
        ));
        let held = Held(self);
        to.print(format_args!("correct {i} {a} {held}\n"));
    }

    fn fetch<W: Write>(&mut self, to: &mut Output<W>, b: usize)
        ensures { Same self.old self.new }
    {
        let n = self.spare.used.number;
        let room = &mut self.spare.bytes[..];
        let a = number(stripe::fetch_by(
            self.layout,
            self.standing,
            self.stripe.part(),
            &mut room[..n],
            b,
        ));
        to.print(format_args!("fetch {b} {a} {self}\n"));
    }

    fn view<W: Write>(&self, to: &mut Output<W>, b: usize) {
        let part = Bytes(stripe::view_by(
            self.layout,
            self.standing,
            self.stripe.part(),
            self.spare.part(),
            b,
        ));
        to.print(format_args!("view {b}{part} {self}\n"));
    }

    // The price, its figures as fractions over k.
    fn price<W: Write>(&self, to: &mut Output<W>, storage: u64, reads: u64) {
        let limits = Limits {
            storage: limit(storage),
            reads: limit(reads),
        };
        // in a layout that a note gives it is small
        let k = u32::try_from(self.layout.k).unwrap_or(0);
        match price::price_of(self.layout, limits) {
            Ok(Price::Fits { storage, reads }) => {
                let storage = Fraction { x: storage, k };
                let reads = Fraction { x: reads, k };
                to.print(format_args!("price fits {storage} {reads}\n"));
            }
            Ok(Price::TooLarge(storage)) => {
                let storage = Fraction { x: storage, k };
                to.print(format_args!("price large {storage}\n"));
            }
            Ok(Price::TooManyReads(reads)) => {
                let reads = Fraction { x: reads, k };
                to.print(format_args!("price reads {reads}\n"));
            }
            Err(e) => {
                let m = e.number();
                to.print(format_args!("price {m}\n"));
            }
        }
    }

    // Does a command, and writes its line.
    pub fn run<W: Write>(&mut self, to: &mut Output<W>, command: Command<'_>)
        ensures { Leaves command.entry self.old self.new }
    {
        match command {
            Command::Note(bytes) => {
                self.layout = notes::read(to, bytes, self.layout, b"note k ", b"note refused ");
            }
            Command::Alter(f) => {
                altered::field(&mut self.layout, f);
                to.print(format_args!("alter {f}\n"));
            }
            Command::Stand { len, lost } => {
                self.standing = Standing { len, lost };
                to.print(format_args!("standing {len} {lost}\n"));
            }
            Command::Stripe(bytes) => {
                self.stripe.lay(bytes);
                let stripe = Bytes(self.stripe.part());
                to.print(format_args!("stripe{stripe}\n"));
            }
            Command::Spare(bytes) => {
                self.spare.lay(bytes);
                let spare = Bytes(self.spare.part());
                to.print(format_args!("spare{spare}\n"));
            }
            Command::Junk(x) => {
                let n = self.stripe.used.number;
                let room = &mut self.stripe.bytes[..];
                junk::spoil(&mut room[..n], self.standing, x);
                let stripe = Bytes(self.stripe.part());
                to.print(format_args!("junk{stripe}\n"));
            }
            Command::Encode => self.encode(to),
            Command::Lose(b) => self.lose(to, b),
            Command::Plan(b) => self.plan(to, b),
            Command::Repair(b) => self.repair(to, b),
            Command::Rebuild => self.rebuild(to),
            Command::Correct {
                block,
                offset,
                difference,
            } => self.correct(to, block, offset, difference),
            Command::Fetch(b) => self.fetch(to, b),
            Command::View(b) => self.view(to, b),
            Command::Price { storage, reads } => self.price(to, storage, reads),
            Command::Tell => to.print(format_args!("state {self}\n")),
        }
    }
}
