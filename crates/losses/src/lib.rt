// The lines of the lost blocks.
#![tactic(auto)]

ghost use Rattle.std.specs.Prelude.{◌+◌, ◌*◌, ◌<◌, ◌≤◌, length};
ghost use Rattle.losses.specs.Lines.{Lines};
ghost use Rattle.losses.specs.Inner.{WrittenBy, Goes};

use groups::Layout;
use plan::{Refusal, Standing};
use text::Writer;

// The line of block b, if it is lost.
fn put_block(w: &mut Writer<'_>, l: Layout, st: Standing, b: usize)
    requires { (b < 48) × (w.old.at + 232 ≤ length w.old.out.now) }
    ensures { WrittenBy (Goes l st b) 232 w.old w.new }
{
    if !marks::holds(st.lost, b) {
        return;
    }
    let r = plan::plan_of(l, st, b);
    loss::put_line(w, b, r.map_err(Refusal::number));
}

// The lines of the lost blocks below n.
pub fn put_lines(w: &mut Writer<'_>, l: Layout, st: Standing, n: usize)
    requires { (n ≤ 48) × (w.old.at + 232 * n ≤ length w.old.out.now) }
    ensures { WrittenBy (Lines l st n) (232 * n) w.old w.new }
{
    for b in 0..n {
        put_block(w, l, st, b);
    }
}
