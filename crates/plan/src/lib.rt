// The plan of a lost block.
#![tactic(auto)]

ghost use Rattle.std.specs.Prelude.{◌≡◌, ◌<◌, ◌≤◌, length};
ghost use Rattle.given.specs.Given.{Given};
ghost use Rattle.rows.specs.Rows.{blocks};
ghost use Rattle.linear.specs.Sets.{tally};
ghost use Rattle.linear.specs.Solved.{vec, Survivors, Solved};
ghost use Rattle.plan.specs.Codes.{InRange};
ghost use Rattle.plan.specs.Front.{FrontSays};
ghost use Rattle.plan.specs.Listing.{blank, offered, list_of};
ghost use Rattle.plan.specs.Plans.{Plans};
ghost use Rattle.plan.specs.Refusals.{number};
ghost use Rattle.plan.specs.Inner.{row_list, Coefficients};

use groups::Layout;

// Stays: a layout and a standing are arguments of each call, here and in the crates above. C lends them one by one, and `price` and `read` take one or none.
// The standing of a stripe: L, and the set of lost blocks, bit b being block b's mark. Every value has a meaning.
#[repr(C)]
#[derive(Clone, Copy)]
pub struct Standing {
    pub len: usize,
    pub lost: u64,
}

// Why a call is refused: document 01's table from 6 on, in its order.
#[derive(Clone, Copy, PartialEq, Eq)]
pub enum Refusal {
    Layout = 6, // a layout that no accepted note gives
    Length, // L outside its range, or a stripe that is not n x L bytes
    Marks, // a lost mark at n or above
    Block, // a block number not below n; in a correction, not below k
    Present, // repair of, or plan for, a block not lost
    Lost, // correction or loss of a block already lost
    Range, // offset plus difference passes L
    Spare, // a spare that is not exactly L bytes
    NoPlan, // the lost block to be planned, repaired or read, or in a rebuild any lost block, has no plan
    NotANumber, // a price limit that is not a number
    Unprotected, // a data block lost alone has no plan
}

impl Refusal {
    // Its number in document 01's table.
    pub fn number(self) -> u8
        ensures { result ≡ number self }
    {
        self as u8
    }
}

// A plan: how many blocks it reads, their numbers, rising, and their coefficients. Entries that are not in use are 0.
// Stays: two arrays with their length beside them are the C interface (store_plan_list in include/store.h).
#[repr(C)]
#[derive(Clone, Copy)]
pub struct Plan {
    pub reads: usize,
    pub block: [u8; 32],
    pub coef: [u8; 32],
}

impl Plan {
    // No block is listed; the plan that the C interface gives beside a refusal.
    // Stays: each field. A derived Default was tried: that it is `blank` stays open without an answer, and three edits hang on the fields.
    pub fn none() -> Plan
        ensures { result ≡ blank }
    {
        Plan {
            reads: 0,
            block: [0; 32],
            coef: [0; 32],
        }
    }

    // Lists block s with coefficient c, unless c is zero.
    fn offer(&mut self, s: u8, c: u8)
        requires { 0 < c → self.old.reads < 32 }
        ensures { self.new ≡ offered self.old s c }
    {
        if c != 0 {
            self.block[self.reads] = s;
            self.coef[self.reads] = c;
            self.reads += 1;
        }
    }
}

// The listing of coefficients by block number.
fn listed(coef: &[u8; 48]) -> Plan
    requires { tally (vec coef.now) 48 ≤ 32 }
    ensures { result ≡ list_of (vec coef.now) 48 }
{
    let mut p = Plan::none();
    for (s, c) in coef.iter().enumerate() {
        p.offer(s as u8, *c);
    }
    p
}

// What the elimination answers where the target is row b of the matrix itself.
fn solve_row(matrix: &[u8; 1536], order: &[u8; 48], m: usize, b: usize) -> Option<[u8; 48]>
    requires survivors { Survivors matrix.now order.now m }
    requires b_bound { b < 48 }
    ensures { Solved matrix.now order.now m (row_list matrix.now b) result }
{
    linear::solve(matrix, order, m, &matrix[b * 32..b * 32 + 32])
}

// The coefficients of block b's plan by block number, the marks of `lost` standing; None where it has no plan.
// Stays: that l is given is a clause and no type, as in `rows`.
pub fn coefficients(l: Layout, lost: u64, b: usize) -> Option<[u8; 48]>
    requires given { Given l }
    requires b_bound { b < blocks l }
    ensures { Coefficients l lost b result }
{
    let mut matrix = [0u8; 1536];
    rows::matrix(l, &mut matrix);
    let v = visits::visit(l, lost, b);
    solve_row(&matrix, &v.blocks, v.count, b)
}

// 6, 7 or 8 where it applies, in this order. Of 7, L alone is asked.
// Stays: the range of L stands here, in shape and in input, one expression each: a function for it would need a promise of its own and say no more.
pub fn front(l: Layout, st: Standing) -> Result<(), Refusal>
    ensures { FrontSays l st (InRange st.len) result }
{
    if !given::known(l) {
        return Err(Refusal::Layout);
    }
    if !(1..=1024).contains(&st.len) {
        return Err(Refusal::Length);
    }
    if !marks::none_from(st.lost, l.k + l.r) {
        return Err(Refusal::Marks);
    }
    Ok(())
}

// The plan of block b, the lowest refusal that applies being given first.
// Stays: 9, 10 and 14 are asked here as in a repair, seven lines twice. A function for them would need a promise and edits of its own, and say no less.
pub fn plan_of(l: Layout, st: Standing, b: usize) -> Result<Plan, Refusal>
    ensures { Plans l st b result }
{
    front(l, st)?;
    let n = l.k + l.r;
    if n <= b {
        return Err(Refusal::Block);
    }
    if !marks::holds(st.lost, b) {
        return Err(Refusal::Present);
    }
    let coef = coefficients(l, st.lost, b).ok_or(Refusal::NoPlan)?;
    Ok(listed(&coef))
}
