// The line of a lost block.
#![tactic(auto)]

ghost use Rattle.std.specs.Prelude.{◌+◌, ◌<◌, ◌≤◌, length, IfOk};
ghost use Rattle.text.specs.Put.{HasRoom, Writes};
ghost use Rattle.loss.specs.Line.{plan_text, line_of};

use plan::Plan;
use text::Writer;

// What is said of a lost block's plan, or of the number that it is refused by, any number.
fn put_planned(w: &mut Writer<'_>, r: Result<Plan, u8>)
    requires reads_bound { IfOk r (λ p. p.reads ≤ 32) × (w.old.at + 4 ≤ length w.old.out.now) }
    requires room { HasRoom (plan_text r) w.old }
    ensures { Writes (plan_text r) w.old w.new }
{
    match r {
        Ok(p) => w.put_items(&p.block, &p.coef, p.reads),
        Err(number) => {
            w.put(b' ');
            w.put_decimal(number);
        }
    }
}

// The line of a lost block: its plan, or the number that it is refused by, any number.
pub fn put_line(w: &mut Writer<'_>, b: usize, r: Result<Plan, u8>)
    requires b_bound { (b < 256) × IfOk r (λ p. p.reads ≤ 32) × (w.old.at + 12 ≤ length w.old.out.now) }
    requires room { HasRoom (line_of b r) w.old }
    ensures { Writes (line_of b r) w.old w.new }
{
    w.put_word(b"lost ");
    w.put_decimal(b as u8);
    put_planned(w, r);
    w.put(b'\n');
}
