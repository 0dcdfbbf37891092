// Linear algebra over the field of 256 elements: whether a row is a combination of the survivors' rows, and by which coefficients.
#![tactic(auto)]

ghost use Rattle.std.specs.Prelude.{◌≡◌, ◌+◌, ◌*◌, ◌<◌, ◌==◌, not, length, take, position, IfSome};
ghost use Rattle.linear.specs.Reduction.{Triangular};
ghost use Rattle.linear.specs.Slots.{slot, pivot, Filled, Shape, Reduced, Absorbed, Taken};
ghost use Rattle.linear.specs.Solved.{Survivors, Solved};

// The vector of a row whose expression has e at block b and zeros elsewhere.
fn vector(row: &[u8], b: usize, e: u8) -> [u8; 80]
    requires row_len { length row.now ≡ 32 }
    requires b_bound { b < 48 }
    ensures { Filled row.now b e result }
{
    let mut v = [0; 80];
    v[..32].copy_from_slice(row);
    v[32 + b] = e;
    v
}

// The first column of v's row that is not zero.
fn first(v: &[u8; 80]) -> Option<usize>
    ensures within { IfSome result (λ i. i < 32) }
    ensures found { result ≡ position (λ x. not (x == 0)) (take 32 v.now) }
{
    v[..32].iter().position(|x| *x != 0)
}

// A vector with a 1 at its pivot.
#[derive(Clone, Copy)]
struct Slot {
    vector: [u8; 80],
    pivot: u8,
}

// The survivors that are taken in, in the slots below count; the others hold zeros. Each slot is zero at the pivots of those before it.
// Stays: an array with its count. The calls stand on `std` alone (README.md), and ArrayVec is of another library of the toolchain.
#[derive(Drop)]
struct Basis {
    slots: [Slot; 32],
    count: usize,
    ghost shape: { Shape slots count },
}

impl Basis {
    fn new() -> Basis
        ensures { result.count ≡ 0 }
    {
        let blank = Slot {
            vector: [0; 80],
            pivot: 0,
        };
        Basis {
            slots: [blank; 32],
            count: 0,
        }
    }

    // Takes the slots in use out of v, each at its pivot.
    fn reduce(&self, v: &mut [u8; 80])
        ensures { Reduced v.old self.now.slots self.now.count v.new }
    {
        for slot in &self.slots[..self.count] {
            let c = v[slot.pivot as usize];
            field::scaled_add(v, &slot.vector, c);
        }
    }

    // Reduces v and, where something of its row is left, stores it with a 1 at its pivot.
    fn absorb(&mut self, v: &mut [u8; 80])
        requires { Triangular 32 (slot self.old.slots) (pivot self.old.slots) self.old.count }
        ensures { Absorbed v.old self.old.slots self.old.count self.new.slots self.new.count }
    {
        self.reduce(v);
        let Some(col) = first(v) else {
            return;
        };
        let c = field::inv(v[col]);
        let mut vector = [0; 80];
        field::scaled_add(&mut vector, v, c);
        self.slots[self.count] = Slot {
            vector,
            pivot: col as u8,
        };
        self.count += 1;
    }

    // Takes in the survivor at place j.
    fn consider(&mut self, rows: &[u8], order: &[u8], m: usize, j: usize)
        requires survivors { Survivors rows.now order.now m }
        requires j_lt_m { j < m }
        requires taken { Taken rows.now order.now self.old.slots self.old.count j }
        ensures { Taken rows.now order.now self.new.slots self.new.count (j + 1) }
    {
        let b = order[j] as usize;
        let from = b * 32;
        let mut v = vector(&rows[from..from + 32], b, 1);
        self.absorb(&mut v);
    }

    // All m survivors, taken in in their order.
    // Stays: j is the place in the order, of which `Taken` says how many are taken in.
    fn of_survivors(rows: &[u8], order: &[u8], m: usize) -> Basis
        requires { Survivors rows.now order.now m }
        ensures { Taken rows.now order.now result.slots result.count m }
    {
        let mut basis = Basis::new();
        for j in 0..m {
            basis.consider(rows, order, m, j);
        }
        basis
    }
}

// Stays: order with m beside it, and the rows as one list of bytes. `Survivors`, `Solved` and `solved_unique` speak of them so (docs/PROMISES.md).
// The coefficients of target's plan by block number, or None where target is no combination of the rows of the first m survivors of the order.
pub fn solve(rows: &[u8], order: &[u8], m: usize, target: &[u8]) -> Option<[u8; 48]>
    requires survivors { Survivors rows.now order.now m }
    requires target_len { length target.now ≡ 32 }
    ensures { Solved rows.now order.now m target.now result }
{
    let basis = Basis::of_survivors(rows, order, m);
    let mut v = vector(target, 0, 0);
    basis.reduce(&mut v);
    if first(&v).is_some() {
        return None;
    }
    let mut coef = [0; 48];
    coef.copy_from_slice(&v[32..]);
    Some(coef)
}
