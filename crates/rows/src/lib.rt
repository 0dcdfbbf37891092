// From a layout: the home and the row of each block.
#![tactic(auto)]

ghost use Rattle.std.specs.Prelude.{◌≡◌, ◌+◌, ◌*◌, ◌≤◌, ◌<◌, length, slice_index, EachIndex};
ghost use Rattle.given.specs.Given.{Given};
ghost use Rattle.rows.specs.Rows.{among, home, row};
ghost use Rattle.rows.specs.Answers.{Matrix};
ghost use Rattle.rows.specs.Inner.{owns_in, row_in, entry_in, Fit, Homed};

use groups::{Group, Layout};

// Whether b is one of the m numbers from a on.
#[tactic(auto, unfolding(crate::specs::Rows::among))]
pub fn among(a: usize, m: usize, b: usize) -> bool
    requires { a + m ≤ 64 }
    ensures { result ≡ among a m b }
{
    a <= b && b < a + m
}

// Whether block b is the group g's own, where there are k data blocks.
#[tactic(auto, unfolding(crate::specs::Inner::owns_in))]
fn owned(g: Group, k: usize, b: usize) -> bool
    requires { Fit g k }
    ensures { result ≡ owns_in g k b }
{
    if b < k {
        return among(g.first, usize::from(g.d), b);
    }
    among(k + g.redundant, usize::from(g.h), b)
}

// The home of block b.
// Stays: here and below that l is given is a clause and no type. These functions take a Layout (docs/PROMISES.md), and `Given` itself, which holds a note,
// was tried as a ghost field: the check wants a proposition there.
// Stays: a for. rposition was tried: that its closure may be called, which asks `Fit` of each group, stays open.
pub fn home_of(l: Layout, b: usize) -> usize
    requires { Given l }
    ensures { result ≡ home l b }
{
    let groups = &l.list[..l.groups];
    let mut at: usize = 0;
    for (x, g) in groups.iter().enumerate() {
        if owned(*g, l.k, b) {
            at = x;
        }
    }
    at
}

// The row of block b, whose home is the group g.
fn row_number(g: Group, k: usize, b: usize) -> usize
    requires { (k + g.redundant ≤ b) × (row_in g k b < 16) }
    ensures { result ≡ row_in g k b }
{
    g.row + (b - (k + g.redundant))
}

// Whether data block i is inside the group g, nested groups included.
fn covers(g: Group, i: usize) -> bool
    requires { g.first + g.count ≤ 32 }
    ensures { result ≡ among g.first g.count i }
{
    among(g.first, g.count, i)
}

// The entry at data block i of the row of block b, whose home is the group g. There is no block from n on.
// Stays: g, k and n as parameters. put_row alone calls this, and a struct of the three would be built for that one call.
#[tactic(auto, using(crate::proofs::Groups::entry_one, crate::proofs::Groups::entry_zero, crate::proofs::Groups::entry_in_lem), unfolding(crate::specs::Inner::entry_in, crate::specs::Rows::part))]
fn entry(g: Group, k: usize, n: usize, b: usize, i: usize) -> u8
    requires homed { Homed g k n b }
    requires i_bound { i < 32 }
    ensures { result ≡ entry_in g k n b i }
{
    if b < k {
        if i == b {
            return 1;
        }
        return 0;
    }
    if n <= b {
        return 0;
    }
    if covers(g, i) {
        return field::coef(row_number(g, k, b) as u8, i as u8);
    }
    0
}

// Writes the row of block b.
fn put_row(l: Layout, b: usize, entries: &mut [u8])
    requires given { Given l }
    requires entries_len { length entries.old ≡ 32 }
    ensures { EachIndex entries.new (λ i. slice_index entries.new i ≡ row l b i) }
{
    let x = home_of(l, b);
    let g = l.list[x];
    let k = l.k;
    let n = k + l.r;
    for (i, e) in entries.iter_mut().enumerate() {
        *e = entry(g, k, n, b, i);
    }
}

// Stays: one list of bytes. `Matrix` and `row_of` speak of it so, and rows of 32 as a type would ask more of callers.
// Writes the rows of all blocks, 32 bytes each, with zeros where there is no block and from column k on.
#[tactic(auto, using(crate::proofs::Stores::rows_none, crate::proofs::Stores::rows_more, crate::proofs::Stores::rows_all))]
pub fn matrix(l: Layout, rows: &mut [u8])
    requires given { Given l }
    requires rows_len { length rows.old ≡ 1536 }
    ensures { Matrix l rows.new }
{
    // Stays: rows by number. Of what chunks_exact_mut or as_chunks_mut lends, std says nothing once it is given back, and `Matrix` speaks of it.
    for b in 0..48 {
        put_row(l, b, &mut rows[b * 32..(b + 1) * 32]);
    }
}
