// The exports of the calls, for C and Rust (include/store.h): each symbol is the call of `bridge` of the same name, and promises what that promises. A crate is a
// library or a static library and not both, so the exports have one of their own. Stays: each call stands here again, as the C interface has it.
#![tactic(auto)]

ghost use Rattle.bridge.specs.Exports.{ReadSays, PlanSays, CorrectSays, FetchSays, ViewSays, PriceSays};
ghost use Rattle.store.specs.Store.{Encode, Lose, Repair, Rebuild};

use bridge::{NoteSaid, PlanSaid, PriceSaid};
use groups::Layout;
use plan::Standing;
use price::Limits;
use store::Said;
use stripe::Part;

// Reads a note.
#[unsafe(no_mangle)]
pub extern "C" fn store_read(note: &[u8]) -> NoteSaid
    ensures { ReadSays note.now result }
{
    bridge::store_read(note)
}

// The plan of lost block b.
#[unsafe(no_mangle)]
pub extern "C" fn store_plan(l: Layout, st: Standing, b: usize) -> PlanSaid
    ensures { PlanSays l st b result }
{
    bridge::store_plan(l, st, b)
}

// Lays a difference into data block i from `off` on, and its multiples into the surviving redundant blocks.
#[unsafe(no_mangle)]
pub extern "C" fn store_correct(
    l: Layout,
    st: Standing,
    stripe: &mut [u8],
    i: usize,
    off: usize,
    diff: &[u8],
) -> u8
    ensures { CorrectSays l st stripe.old i off diff.now result stripe.new }
{
    bridge::store_correct(l, st, stripe, i, off, diff)
}

// Rebuilds a lost block into the spare; for a present one the spare is left alone.
#[unsafe(no_mangle)]
pub extern "C" fn store_fetch(
    l: Layout,
    st: Standing,
    stripe: &[u8],
    spare: &mut [u8],
    b: usize,
) -> u8
    ensures { FetchSays l st stripe.now spare.old b result spare.new }
{
    bridge::store_fetch(l, st, stripe, spare, b)
}

// Where the part stands that holds block b: in the stripe, or in the spare. Empty exactly where fetching would refuse.
#[unsafe(no_mangle)]
pub extern "C" fn store_view(l: Layout, st: Standing, stripe: &[u8], spare: &[u8], b: usize) -> Part
    ensures { ViewSays l st stripe.entry spare.entry b result }
{
    bridge::store_view(l, st, stripe, spare, b)
}

// What a layout costs, under two limits.
#[unsafe(no_mangle)]
pub extern "C" fn store_price(l: Layout, limits: Limits) -> PriceSaid
    ensures { PriceSays l limits result }
{
    bridge::store_price(l, limits)
}

// Writes every redundant block from the data as lent, leaves every data byte, and marks nothing lost.
#[unsafe(no_mangle)]
pub extern "C" fn store_encode(l: Layout, st: &mut Standing, stripe: &mut [u8]) -> Said
    ensures { Encode l st.old stripe.old result st.new stripe.new }
{
    bridge::store_encode(l, st, stripe)
}

// Marks block b lost.
#[unsafe(no_mangle)]
pub extern "C" fn store_lose(l: Layout, st: &mut Standing, b: usize) -> Said
    ensures { Lose l st.old b result st.new }
{
    bridge::store_lose(l, st, b)
}

// Writes lost block b by its plan and clears its mark.
#[unsafe(no_mangle)]
pub extern "C" fn store_repair(l: Layout, st: &mut Standing, stripe: &mut [u8], b: usize) -> Said
    ensures { Repair l st.old stripe.old b result st.new stripe.new }
{
    bridge::store_repair(l, st, stripe, b)
}

// Repairs every lost block, in rising order.
#[unsafe(no_mangle)]
pub extern "C" fn store_rebuild(l: Layout, st: &mut Standing, stripe: &mut [u8]) -> Said
    ensures { Rebuild l st.old stripe.old result st.new stripe.new }
{
    bridge::store_rebuild(l, st, stripe)
}
