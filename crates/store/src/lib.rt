// The store: the calls of document 01. Each answers every input; on a refusal everything lent is as it was.
// Stays: layout, standing and stripe are arguments and no struct with methods: C lends them one by one (include/store.h), and not every call takes all three.
#![tactic(auto)]

ghost use Rattle.std.specs.Prelude.{◌≡◌};
ghost use Rattle.plan.specs.declared.Refusal.TheVariants.{NoPlan};
ghost use Rattle.repairs.specs.declared.Unrebuilt.TheVariants as Why;
ghost use Rattle.store.specs.Answers.{told, spoken, named};
ghost use Rattle.store.specs.Store.{Read, Encode, Lose, Plan, Repair, Rebuild, Correct, Fetch, View, Price};

use groups::Layout;
use note::Refused;
use plan::{Refusal, Standing};
use price::Limits;
use repairs::Unrebuilt;

// 0 where the call is accepted, otherwise the number of its refusal; for a rebuild's 14 the lowest lost block that has no plan, and 0 in every other case.
// Stays: a number with a block beside it, since the C interface has this struct (include/store.h).
#[repr(C)]
#[derive(Clone, Copy)]
pub struct Said {
    pub number: u8,
    pub block: usize,
}

// An answer in numbers: 0 where the call is accepted, otherwise the number that it is refused by, any number.
pub fn say(answer: Result<(), u8>) -> Said
    ensures { result ≡ told answer }
{
    match answer {
        Ok(()) => Said {
            number: 0,
            block: 0,
        },
        Err(number) => Said { number, block: 0 },
    }
}

// An answer in numbers.
impl From<Result<(), Refusal>> for Said {
    ghost from_gives = { λ r s. s ≡ spoken r };

    fn from(r: Result<(), Refusal>) -> Said {
        say(r.map_err(Refusal::number))
    }
}

// A rebuild's answer in numbers.
impl From<Result<(), Unrebuilt>> for Said {
    ghost from_gives = { λ r s. s ≡ named r };

    fn from(r: Result<(), Unrebuilt>) -> Said {
        match r {
            Ok(()) => Said {
                number: 0,
                block: 0,
            },
            Err(Unrebuilt::Refused(e)) => Said::from(Err(e)),
            Err(Unrebuilt::NoPlan(b)) => Said {
                number: Refusal::NoPlan.number(),
                block: b,
            },
        }
    }
}

// Writes every redundant block from the data as lent, leaves every data byte, and marks nothing lost. Refusals: 6, 7.
pub fn encode(l: Layout, st: &mut Standing, stripe: &mut [u8]) -> Result<(), Refusal>
    ensures { Encode l st.old stripe.old (spoken result) st.new stripe.new }
{
    *st = stripe::encode_by(l, *st, stripe)?;
    Ok(())
}

// Marks block b lost. Refusals: 6, 7 (L alone), 8, 9, 11.
pub fn lose(l: Layout, st: &mut Standing, b: usize) -> Result<(), Refusal>
    ensures { Lose l st.old b (spoken result) st.new }
{
    *st = stripe::lose_by(l, *st, b)?;
    Ok(())
}

// Writes lost block b by its plan and clears its mark. Refusals: 6, 7, 8, 9, 10, 14.
pub fn repair(l: Layout, st: &mut Standing, stripe: &mut [u8], b: usize) -> Result<(), Refusal>
    ensures { Repair l st.old stripe.old b (spoken result) st.new stripe.new }
{
    *st = repairs::repair_by(l, *st, stripe, b)?;
    Ok(())
}

// Repairs every lost block, in rising order. Refusals: 6, 7, 8, and 14 with the lowest lost block that has no plan, never without one.
pub fn rebuild(l: Layout, st: &mut Standing, stripe: &mut [u8]) -> Result<(), Unrebuilt>
    ensures rebuild { Rebuild l st.old stripe.old (named result) st.new stripe.new }
    ensures block { result ≡ Err (Why.Refused NoPlan) → ⊥ }
{
    *st = repairs::rebuild_by(l, *st, stripe)?;
    Ok(())
}

// The plan of lost block b: the blocks it reads, rising, with their coefficients. Refusals: 6, 7 (L alone), 8, 9, 10, 14.
pub fn plan(l: Layout, st: Standing, b: usize) -> Result<plan::Plan, Refusal>
    ensures { Plan l st b result }
{
    plan::plan_of(l, st, b)
}

// Lays a difference into data block i from `off` on, and its multiples into the surviving redundant blocks. Refusals: 6, 7, 8, 9, 11, 12.
pub fn correct(
    l: Layout,
    st: Standing,
    stripe: &mut [u8],
    i: usize,
    off: usize,
    diff: &[u8],
) -> Result<(), Refusal>
    ensures { Correct l st stripe.old i off diff.now result stripe.new }
{
    correct::correct_by(l, st, stripe, i, off, diff)
}

// Rebuilds a lost block into the spare; for a present one the spare is left alone. Refusals: 6, 7, 8, 9, 13, 14.
pub fn fetch(
    l: Layout,
    st: Standing,
    stripe: &[u8],
    spare: &mut [u8],
    b: usize,
) -> Result<(), Refusal>
    ensures { Fetch l st stripe.now spare.old b result spare.new }
{
    stripe::fetch_by(l, st, stripe, spare, b)
}

// The part that holds block b: of the spare where b is lost, of the stripe where it is not. Empty exactly where fetching would refuse.
pub fn view<'a>(l: Layout, st: Standing, stripe: &'a [u8], spare: &'a [u8], b: usize) -> &'a [u8]
    ensures { View l st stripe.entry spare.entry b result }
{
    stripe::view_by(l, st, stripe, spare, b)
}

// What a layout costs: storage and mean reads, under two limits. Refusals: 6, 15, 16.
pub fn price(l: Layout, limits: Limits) -> Result<price::Price, Refusal>
    ensures { Price l limits result }
{
    price::price_of(l, limits)
}

// Reads a note. Refusals: 1 to 5, the first fault in reading order, with its offset.
pub fn read(note: &[u8]) -> Result<Layout, Refused>
    ensures { Read note.now result }
{
    reader::read(note)
}
