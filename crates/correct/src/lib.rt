// The call that corrects a stripe, with its standing by value. The work on the bytes is that of `corrections`.
#![tactic(auto)]

ghost use Rattle.std.specs.Prelude.{◌+◌, ◌≤◌};
ghost use Rattle.given.specs.Given.{Tells};
ghost use Rattle.correct.specs.Corrects.{Corrects};

use corrections::Correction;
use groups::Layout;
use plan::{Refusal, Standing};

// Whether m bytes from off on stay below len. A sum that would wrap is none.
fn stays(off: usize, m: usize, len: usize) -> bool
    ensures { Tells result (off + m ≤ len) }
{
    off.checked_add(m).is_some_and(|end| end <= len)
}

// Lays a difference into data block i at an offset, and its multiples into the surviving redundant blocks.
pub fn correct_by(
    l: Layout,
    st: Standing,
    stripe: &mut [u8],
    i: usize,
    off: usize,
    diff: &[u8],
) -> Result<(), Refusal>
    ensures { Corrects l st i off diff.now stripe.old stripe.new result }
{
    shape::front(l, st, stripe.len())?;
    if l.k <= i {
        return Err(Refusal::Block);
    }
    if marks::holds(st.lost, i) {
        return Err(Refusal::Lost);
    }
    if !stays(off, diff.len(), st.len) {
        return Err(Refusal::Range);
    }
    let n = l.k + l.r;
    let mut matrix = [0u8; 1536];
    rows::matrix(l, &mut matrix);
    let correction = Correction {
        diff,
        i,
        off,
        rows: &matrix,
        lost: st.lost,
        k: l.k,
        n,
        len: st.len,
    };
    correction.correct_all(stripe);
    Ok(())
}
