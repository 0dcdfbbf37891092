// What every call on a stripe asks first, and what a refusal gives back.
#![tactic(auto)]

ghost use Rattle.std.specs.Prelude.{◌≡◌};
ghost use Rattle.plan.specs.Front.{FrontSays};
ghost use Rattle.shape.specs.Front.{refusal, ShapeSays};
ghost use Rattle.shape.specs.Shapes.{Sized};

use groups::Layout;
use plan::{Refusal, Standing};

// The standing after a call, and the call's answer: accepted, or refused by any number.
#[derive(Clone, Copy)]
pub struct Stood {
    pub standing: Standing,
    pub answer: Result<(), u8>,
}

// A refusal, by any number, leaves the standing as it was.
pub fn refuse(st: Standing, number: u8) -> Stood
    ensures { result ≡ refusal st number }
{
    Stood {
        standing: st,
        answer: Err(number),
    }
}

// 6 or 7 where it applies, in this order. `size` is the length of the stripe.
pub fn shape(l: Layout, len: usize, size: usize) -> Result<(), Refusal>
    ensures { ShapeSays l (Sized l len size) result }
{
    if !given::known(l) {
        return Err(Refusal::Layout);
    }
    if !(1..=1024).contains(&len) {
        return Err(Refusal::Length);
    }
    let n = l.k + l.r;
    if size != n * len {
        return Err(Refusal::Length);
    }
    Ok(())
}

// 6, 7 or 8 where it applies, in this order.
// Stays: plan has the like for calls that are lent no stripe. 7 asks another thing there (`InRange`, not `Sized`), so these are two promises.
pub fn front(l: Layout, st: Standing, size: usize) -> Result<(), Refusal>
    ensures { FrontSays l st (Sized l st.len size) result }
{
    shape(l, st.len, size)?;
    if !marks::none_from(st.lost, l.k + l.r) {
        return Err(Refusal::Marks);
    }
    Ok(())
}
