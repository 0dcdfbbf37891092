// The calls on a stripe but those that repair or correct it, with its standing by value. A stripe holds its blocks one after another: block b from b * len on.
#![tactic(auto)]

ghost use Rattle.stripe.specs.Reads.{Asks};
ghost use Rattle.stripe.specs.Stripes.{Encodes, Loses, Fetches, Placed, Views};

use groups::Layout;
use plan::{Refusal, Standing};

// The part of the stripe or of the spare that holds a block: `slice` 0 is the stripe, 1 the spare; `len` bytes from `from` on.
// Stays: `slice` is a number, since the C interface has this struct (include/store.h).
#[repr(C)]
#[derive(Clone, Copy)]
pub struct Part {
    pub slice: u8,
    pub from: usize,
    pub len: usize,
}

// Writes every redundant block from the data as lent, and marks nothing lost. Answers the standing that is left.
pub fn encode_by(l: Layout, st: Standing, stripe: &mut [u8]) -> Result<Standing, Refusal>
    ensures { Encodes l st stripe.old stripe.new result }
{
    shape::shape(l, st.len, stripe.len())?;
    let mut matrix = [0u8; 1536];
    rows::matrix(l, &mut matrix);
    pieces::encoding::encode_all(&matrix, stripe, l.k, l.k + l.r, st.len);
    Ok(Standing { lost: 0, ..st })
}

// Marks block b lost. Answers the standing that is left.
pub fn lose_by(l: Layout, st: Standing, b: usize) -> Result<Standing, Refusal>
    ensures { Loses l st b result }
{
    plan::front(l, st)?;
    if l.k + l.r <= b {
        return Err(Refusal::Block);
    }
    if marks::holds(st.lost, b) {
        return Err(Refusal::Lost);
    }
    let lost = marks::with(st.lost, b);
    Ok(Standing { lost, ..st })
}

// What fetching asks. The coefficients of block b's plan where it is lost, None where it is not. `size` and `room` are the lengths of stripe and spare.
fn ask(
    l: Layout,
    st: Standing,
    size: usize,
    room: usize,
    b: usize,
) -> Result<Option<[u8; 48]>, Refusal>
    ensures { Asks l st size room b result }
{
    shape::front(l, st, size)?;
    if l.k + l.r <= b {
        return Err(Refusal::Block);
    }
    if room != st.len {
        return Err(Refusal::Spare);
    }
    if !marks::holds(st.lost, b) {
        return Ok(None);
    }
    let coef = plan::coefficients(l, st.lost, b).ok_or(Refusal::NoPlan)?;
    Ok(Some(coef))
}

// Rebuilds a lost block into the spare; for a present one the spare is left alone.
pub fn fetch_by(
    l: Layout,
    st: Standing,
    stripe: &[u8],
    spare: &mut [u8],
    b: usize,
) -> Result<(), Refusal>
    ensures { Fetches l st b stripe.now spare.old spare.new result }
{
    if let Some(coef) = ask(l, st, stripe.len(), spare.len(), b)? {
        pieces::gather(spare, stripe, &coef, st.len);
    }
    Ok(())
}

// Where block b is read: from the spare where it is lost, in the stripe where it is not; no byte of the spare where fetching would refuse. `size` and `room` are the lengths of stripe and spare.
pub fn part_by(l: Layout, st: Standing, size: usize, room: usize, b: usize) -> Part
    ensures { Placed l st size room b result }
{
    let (slice, from, len) = match ask(l, st, size, room, b) {
        Ok(None) => (0, b * st.len, st.len),
        Ok(Some(_)) => (1, 0, st.len),
        Err(_) => (1, 0, 0),
    };
    Part { slice, from, len }
}

// The part that holds block b: of the spare where b is lost, of the stripe where it is not. Empty where fetching would refuse.
pub fn view_by<'a>(l: Layout, st: Standing, stripe: &'a [u8], spare: &'a [u8], b: usize) -> &'a [u8]
    ensures { Views l st b stripe.entry spare.entry result }
{
    let p = part_by(l, st, stripe.len(), spare.len(), b);
    let whole = if p.slice == 0 { stripe } else { spare };
    &whole[p.from..p.from + p.len]
}
