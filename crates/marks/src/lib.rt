// Sets of blocks as 64 marks: bit b of a number is the mark of block b.
#![tactic(auto)]

ghost use Rattle.std.specs.Prelude.{◌≡◌, ◌<◌};
ghost use Rattle.marks.specs.Marks.{marked, with_mark, without_mark, none_from};

// Whether block b is marked.
// Stays: here and below that b is below 64 is a clause. Blocks are usize in every call, and the marks are the C interface's 64 bits.
#[tactic(auto, unfolding(crate::specs::Marks::marked))]
pub fn holds(m: u64, b: usize) -> bool
    requires { b < 64 }
    ensures { result ≡ marked m b }
{
    (m >> b) % 2 == 1
}

// m with the mark of block b.
pub fn with(m: u64, b: usize) -> u64
    requires { b < 64 }
    ensures { result ≡ with_mark m b }
{
    if holds(m, b) {
        return m;
    }
    m ^ (1 << b)
}

// m without the mark of block b.
pub fn without(m: u64, b: usize) -> u64
    requires { b < 64 }
    ensures { result ≡ without_mark m b }
{
    if holds(m, b) {
        return m ^ (1 << b);
    }
    m
}

// Whether no block from n on is marked.
#[tactic(auto, using(crate::proofs::Bits::shifted_one), unfolding(crate::specs::Marks::none_from))]
pub fn none_from(m: u64, n: usize) -> bool
    requires { n < 64 }
    ensures { result ≡ none_from m n }
{
    m < (1 << n)
}
