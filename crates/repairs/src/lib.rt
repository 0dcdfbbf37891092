// The calls that repair a stripe, one lost block or all of them, with its standing by value.
#![tactic(auto)]

mod turns;

ghost use Rattle.std.specs.Prelude.{◌≡◌};
ghost use Rattle.repairs.specs.Repairs.{RepairsOne, RebuildsAll};
ghost use Rattle.repairs.specs.declared.Unrebuilt.TheVariants.{Refused};

use groups::Layout;
use plan::{Refusal, Standing};

// Why a rebuild is refused: as a call is, or with 14, naming the lowest lost block that has no plan.
#[derive(Clone, Copy, PartialEq, Eq)]
pub enum Unrebuilt {
    Refused(Refusal),
    NoPlan(usize),
}

impl From<Refusal> for Unrebuilt {
    ghost from_gives = { λ e u. u ≡ Refused e };

    fn from(e: Refusal) -> Unrebuilt {
        Unrebuilt::Refused(e)
    }
}

// Writes lost block b by its plan, and clears its mark. Answers the standing that is left.
pub fn repair_by(l: Layout, st: Standing, stripe: &mut [u8], b: usize) -> Result<Standing, Refusal>
    ensures { RepairsOne l st b stripe.old stripe.new result }
{
    shape::front(l, st, stripe.len())?;
    if l.k + l.r <= b {
        return Err(Refusal::Block);
    }
    if !marks::holds(st.lost, b) {
        return Err(Refusal::Present);
    }
    let coef = plan::coefficients(l, st.lost, b).ok_or(Refusal::NoPlan)?;
    pieces::make(stripe, &coef, st.len, b);
    let lost = marks::without(st.lost, b);
    Ok(Standing { lost, ..st })
}

// Repairs every lost block in rising order, once each is known to have a plan. Answers the standing that is left.
pub fn rebuild_by(l: Layout, st: Standing, stripe: &mut [u8]) -> Result<Standing, Unrebuilt>
    ensures { RebuildsAll l st stripe.old stripe.new result }
{
    shape::front(l, st, stripe.len())?;
    if let Some(b) = turns::lowest(l, st.lost) {
        return Err(Unrebuilt::NoPlan(b));
    }
    Ok(turns::restore(l, st, stripe))
}
