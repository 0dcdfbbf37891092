// Corrections: a difference laid into a data block, and its multiples into the redundant blocks. Nothing here knows of a call.
#![tactic(auto)]

ghost use Rattle.std.specs.Prelude.{ℕ, ◌+◌, ◌<◌, ◌≤◌, get_or, length};
ghost use Rattle.corrections.specs.Corrections.{Laid, Asks, Touches, Spreads, CorrectsAll};

// Adds c times the difference, from position `at` on. It says too that the bytes of the difference are below 256.
fn lay(stripe: &mut [u8], at: usize, diff: &[u8], c: u8)
    requires { at + length diff.now ≤ length stripe.old }
    ensures laid { Laid diff.now c at stripe.old stripe.new }
    ensures small { (j : ℕ) → get_or diff.now j 0 < 256 }
{
    field::scaled_add(&mut stripe[at..at + diff.len()], diff, c);
}

// Stays: `Asks` is a clause of three methods and no ghost field, since it speaks of the stripe too, which the struct does not hold.
// A difference for data block i from `off` on, in a stripe of n blocks of `len` bytes: the first k hold data, the others are made by `rows`, and `lost` marks
// those that are lost.
#[derive(Drop)]
pub struct Correction<'a> {
    pub diff: &'a [u8],
    pub i: usize,
    pub off: usize,
    pub rows: &'a [u8],
    pub lost: u64,
    pub k: usize,
    pub n: usize,
    pub len: usize,
}

impl Correction<'_> {
    // What redundant block b gets. One that is lost, or does not cover data block i, is not touched.
    fn touch(&self, stripe: &mut [u8], b: usize)
        requires correctable { Asks self.now stripe.old }
        requires b_lt_n { b < self.now.n }
        ensures { Touches self.now b stripe.old stripe.new }
    {
        if marks::holds(self.lost, b) {
            return;
        }
        let c = self.rows[b * 32 + self.i];
        if c == 0 {
            return;
        }
        lay(stripe, b * self.len + self.off, self.diff, c);
    }

    // What the redundant blocks get.
    fn spread(&self, stripe: &mut [u8])
        requires { Asks self.now stripe.old }
        ensures { Spreads self.now self.now.n stripe.old stripe.new }
    {
        for b in self.k..self.n {
            self.touch(stripe, b);
        }
    }

    // Lays the difference into data block i from `off` on, and its multiples into the redundant blocks that are not lost.
    pub fn correct_all(&self, stripe: &mut [u8])
        requires { Asks self.now stripe.old }
        ensures { CorrectsAll self.now stripe.old stripe.new }
    {
        lay(stripe, self.i * self.len + self.off, self.diff, 1);
        self.spread(stripe);
    }
}
