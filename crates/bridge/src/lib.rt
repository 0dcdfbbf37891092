// The calls of the store for C and Rust (include/store.h), which `bridge_c` exports: numbers, slices and plain structs cross, and nothing else.
#![tactic(auto)]

ghost use Rattle.bridge.specs.Exports.{note_numbers, plan_numbers, price_numbers, ReadSays, PlanSays, CorrectSays, FetchSays, ViewSays, PriceSays};
ghost use Rattle.store.specs.Store.{Encode, Lose, Repair, Rebuild};
ghost use Rattle.std.specs.Prelude.{◌≡◌};

use groups::Layout;
use note::{Reading, Refused};
use plan::{Plan, Refusal, Standing};
use price::{Limits, Price};
use store::Said;
use stripe::Part;

// Stays: here, in the two structs below and in what store_correct and store_fetch answer a number tells the case, since the C interface has them so (include/store.h).

// What reading a note says: 0 and the layout; or the refusal's number, the offset of the record at fault, and the blank layout.
#[repr(C)]
#[derive(Clone, Copy)]
pub struct NoteSaid {
    pub number: u8,
    pub offset: usize,
    pub layout: Layout,
}

// What the question for a plan says: 0 and the plan; or the refusal's number and the blank plan.
#[repr(C)]
#[derive(Clone, Copy)]
pub struct PlanSaid {
    pub number: u8,
    pub plan: Plan,
}

// What the price sheet says. The verdict is 0: fits, 1: too large, 2: too many reads, 3: refused, by `number`. A figure that the case does not carry is 0.
#[repr(C)]
#[derive(Clone, Copy)]
pub struct PriceSaid {
    pub verdict: u8,
    pub number: u8,
    pub storage: f64,
    pub reads: f64,
}

// A reading in numbers.
impl From<Result<Layout, Refused>> for NoteSaid {
    ghost from_gives = { λ r s. s ≡ note_numbers r };

    fn from(r: Result<Layout, Refused>) -> NoteSaid {
        match r {
            Ok(layout) => NoteSaid {
                number: 0,
                offset: 0,
                layout,
            },
            Err(e) => NoteSaid {
                number: e.fault.number(),
                offset: e.offset,
                layout: Reading::refused(e.fault.number(), e.offset).layout,
            },
        }
    }
}

// A plan in numbers.
impl From<Result<Plan, Refusal>> for PlanSaid {
    ghost from_gives = { λ r s. s ≡ plan_numbers r };

    fn from(r: Result<Plan, Refusal>) -> PlanSaid {
        match r {
            Ok(plan) => PlanSaid { number: 0, plan },
            Err(e) => PlanSaid {
                number: e.number(),
                plan: Plan::none(),
            },
        }
    }
}

// A price in numbers.
impl From<Result<Price, Refusal>> for PriceSaid {
    ghost from_gives = { λ r s. s ≡ price_numbers r };

    fn from(r: Result<Price, Refusal>) -> PriceSaid {
        match r {
            Ok(Price::Fits { storage, reads }) => PriceSaid {
                verdict: 0,
                number: 0,
                storage,
                reads,
            },
            Ok(Price::TooLarge(storage)) => PriceSaid {
                verdict: 1,
                number: 0,
                storage,
                reads: 0.0,
            },
            Ok(Price::TooManyReads(reads)) => PriceSaid {
                verdict: 2,
                number: 0,
                storage: 0.0,
                reads,
            },
            Err(e) => PriceSaid {
                verdict: 3,
                number: e.number(),
                storage: 0.0,
                reads: 0.0,
            },
        }
    }
}

// Reads a note.
pub fn store_read(note: &[u8]) -> NoteSaid
    ensures { ReadSays note.now result }
{
    NoteSaid::from(store::read(note))
}

// The plan of lost block b.
pub fn store_plan(l: Layout, st: Standing, b: usize) -> PlanSaid
    ensures { PlanSays l st b result }
{
    PlanSaid::from(store::plan(l, st, b))
}

// Lays a difference into data block i from `off` on, and its multiples into the surviving redundant blocks.
pub fn store_correct(
    l: Layout,
    st: Standing,
    stripe: &mut [u8],
    i: usize,
    off: usize,
    diff: &[u8],
) -> u8
    ensures { CorrectSays l st stripe.old i off diff.now result stripe.new }
{
    Said::from(store::correct(l, st, stripe, i, off, diff)).number
}

// Rebuilds a lost block into the spare; for a present one the spare is left alone.
pub fn store_fetch(l: Layout, st: Standing, stripe: &[u8], spare: &mut [u8], b: usize) -> u8
    ensures { FetchSays l st stripe.now spare.old b result spare.new }
{
    Said::from(store::fetch(l, st, stripe, spare, b)).number
}

// Where the part stands that holds block b: in the stripe, or in the spare. Empty exactly where fetching would refuse.
pub fn store_view(l: Layout, st: Standing, stripe: &[u8], spare: &[u8], b: usize) -> Part
    ensures { ViewSays l st stripe.entry spare.entry b result }
{
    stripe::part_by(l, st, stripe.len(), spare.len(), b)
}

// What a layout costs, under two limits.
pub fn store_price(l: Layout, limits: Limits) -> PriceSaid
    ensures { PriceSays l limits result }
{
    PriceSaid::from(store::price(l, limits))
}

// Writes every redundant block from the data as lent, leaves every data byte, and marks nothing lost.
pub fn store_encode(l: Layout, st: &mut Standing, stripe: &mut [u8]) -> Said
    ensures { Encode l st.old stripe.old result st.new stripe.new }
{
    Said::from(store::encode(l, st, stripe))
}

// Marks block b lost.
pub fn store_lose(l: Layout, st: &mut Standing, b: usize) -> Said
    ensures { Lose l st.old b result st.new }
{
    Said::from(store::lose(l, st, b))
}

// Writes lost block b by its plan and clears its mark.
pub fn store_repair(l: Layout, st: &mut Standing, stripe: &mut [u8], b: usize) -> Said
    ensures { Repair l st.old stripe.old b result st.new stripe.new }
{
    Said::from(store::repair(l, st, stripe, b))
}

// Repairs every lost block, in rising order.
pub fn store_rebuild(l: Layout, st: &mut Standing, stripe: &mut [u8]) -> Said
    ensures { Rebuild l st.old stripe.old result st.new stripe.new }
{
    Said::from(store::rebuild(l, st, stripe))
}
