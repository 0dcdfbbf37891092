// From a layout: the order in which the plan of a lost block visits the survivors.
#![tactic(auto)]

ghost use Rattle.std.specs.Prelude.{◌≡◌, not, ◌&&◌, List, [], ◌+◌, ◌≤◌, ◌<◌, eqb, length, slice_index, EachIndex};
ghost use Rattle.linear.specs.Solved.{vec};
ghost use Rattle.given.specs.Given.{Given};
ghost use Rattle.marks.specs.Marks.{marked};
ghost use Rattle.rows.specs.Rows.{among};
ghost use Rattle.visits.specs.Visits.{meet_below, step, visits};
ghost use Rattle.visits.specs.Answers.{Listed};
ghost use Rattle.visits.specs.Inner.{chosen, gathered, pushed, Extended};

use groups::Layout;

// Blocks in the order in which they are visited: the first `count` entries. Behind them stand zeros.
// Stays: a buffer with a count. `Listed`, which `visit` promises, speaks of both, and of the zeros behind.
#[derive(Clone, Copy)]
pub struct Visits {
    pub count: usize,
    pub blocks: [u8; 48],
}

// Whether x and y are both among the m numbers from a on.
fn both(a: usize, m: usize, x: usize, y: usize) -> bool
    requires { a + m ≤ 64 }
    ensures { result ≡ among a m x && among a m y }
{
    rows::among(a, m, x) && rows::among(a, m, y)
}

// The innermost group that holds both x and y.
// Stays: here and below that l is given is a clause and no type, and this a for, as in `rows`.
fn meet(l: Layout, x: usize, y: usize) -> usize
    requires { Given l }
    ensures { result ≡ meet_below l x y l.groups }
{
    let groups = &l.list[..l.groups];
    let mut at: usize = 0;
    for (g, z) in groups.iter().enumerate() {
        if both(g, z.size, x, y) {
            at = g;
        }
    }
    at
}

// For each block the step at which the walk of block b comes to it.
fn put_steps(l: Layout, b: usize, steps: &mut [u8])
    requires { Given l }
    ensures { EachIndex steps.new (λ s. slice_index steps.new s ≡ step l b s) }
{
    let x = rows::home_of(l, b);
    for (s, e) in steps.iter_mut().enumerate() {
        let y = rows::home_of(l, s);
        *e = meet(l, x, y) as u8;
    }
}

impl Visits {
    // No block yet.
    fn none() -> Visits
        ensures { Listed [] result }
    {
        Visits {
            count: 0,
            blocks: [0u8; 48],
        }
    }

    // One block more.
    fn push(&mut self, s: usize)
        requires { (self.old.count < 48) × (s < 48) }
        ensures { self.new ≡ pushed self.old s }
    {
        self.blocks[self.count] = s as u8;
        self.count += 1;
    }

    // The survivors whose step is g, by number, behind what is there.
    fn push_step(&mut self, lost: u64, steps: &[u8], g: usize)
        requires steps_bound { length steps.now ≤ 48 }
        requires room { self.old.count + length (chosen (marked lost) (vec steps.now) g (length steps.now)) ≤ 48 }
        ensures { Extended self.old (chosen (marked lost) (vec steps.now) g (length steps.now)) self.new }
    {
        for (s, step) in steps.iter().enumerate() {
            if comes(lost, s, *step, g) {
                self.push(s);
            }
        }
    }
}

// Whether s is a survivor whose step is g.
fn comes(lost: u64, s: usize, step: u8, g: usize) -> bool
    requires { s < 64 }
    ensures { result ≡ not (marked lost s) && eqb step g }
{
    !marks::holds(lost, s) && usize::from(step) == g
}

// The survivors whose step is below m, from the last step to the first.
fn gather(lost: u64, steps: &[u8], m: usize) -> Visits
    requires steps_bound { length steps.now ≤ 48 }
    requires room { length (gathered (marked lost) (vec steps.now) (length steps.now) m) ≤ 48 }
    ensures { Listed (gathered (marked lost) (vec steps.now) (length steps.now) m) result }
{
    let mut v = Visits::none();
    for g in (0..m).rev() {
        v.push_step(lost, steps, g);
    }
    v
}

// The survivors in the order in which the plan of block b visits them.
pub fn visit(l: Layout, lost: u64, b: usize) -> Visits
    requires { Given l }
    ensures { Listed (visits l (marked lost) b) result }
{
    let mut bytes = [0u8; 48];
    let steps = &mut bytes[..l.k + l.r];
    put_steps(l, b, steps);
    gather(lost, steps, l.groups)
}
