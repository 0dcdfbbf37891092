// The groups of a layout, and the reader's state: a group is entered in the layout so far if the running totals allow it.
#![tactic(auto)]

ghost use Rattle.std.specs.Prelude.{◌≡◌, ◌≤◌, ◌<◌, MatchResult};
ghost use Rattle.groups.specs.Groups.{blank, bound_passed, number, walking, stopped, walked, refused_at, entered, closed, at_start};
ghost use Rattle.groups.specs.declared.Fault.TheVariants.{Bounds};
ghost use Rattle.groups.specs.Inner.{Sound, Enterable};

// A group of a layout.
#[repr(C)]
#[derive(Clone, Copy, Default, PartialEq, Eq)]
pub struct Group {
    // its own redundant blocks
    pub h: u8,
    // its data blocks: 0 for a branch (stays: the C interface has this struct)
    pub d: u8,
    // the length that its record gives
    pub len: usize,
    // the first of its rows: the rows of the groups round it come before
    pub row: usize,
    // the first data block inside it
    pub first: usize,
    // the first of its own redundant blocks, counted from k on
    pub redundant: usize,
    // the groups inside it, itself counted
    pub size: usize,
    // the data blocks inside it, those of nested groups included
    pub count: usize,
}

// A layout: its groups in the order of their headers, zeros from `groups` on; k data blocks and r redundant blocks in all.
// Stays: the array with its number of groups beside it, since a Layout crosses to C as it is (`store_layout` of include/store.h).
#[repr(C)]
#[derive(Clone, Copy, Default, PartialEq, Eq)]
pub struct Layout {
    pub groups: usize,
    pub list: [Group; 16],
    pub k: usize,
    pub r: usize,
}

// What a note is refused for: document 01's refusals 1 to 5.
#[derive(Clone, Copy, PartialEq, Eq)]
pub enum Fault {
    // 1: fewer than 4 bytes remain where a record must start, or it runs past the end of its branch or note
    End,
    // 2: the kind is neither 1 nor 2
    Kind,
    // 3: a length or a body that its kind does not allow, or a branch with fewer than two members
    Body,
    // 4: bytes after the top record
    Extra,
    // 5: a bound on the running totals
    Bounds,
}

impl Fault {
    // Document 01's number of the refusal.
    // Stays: a match. As numbers of the variants they would stand in the enum and be cast here, which is no plainer.
    pub fn number(self) -> u8
        ensures { result ≡ number self }
    {
        match self {
            Fault::End => 1,
            Fault::Kind => 2,
            Fault::Body => 3,
            Fault::Extra => 4,
            Fault::Bounds => 5,
        }
    }
}

// The reader's state: the layout so far, and its place in the note.
// Stays: that the totals are within the bounds (`Sound`) is asked by the public `enter` and `read_group`; as an invariant it would be asked of whoever builds a Walk.
#[derive(Clone, Copy)]
pub struct Walk {
    pub lay: Layout,
    pub at: usize,
}

// Where a walk stops: the fault, and the state then, whose place is the offset of the record at fault.
#[derive(Clone, Copy)]
pub struct Stopped {
    pub fault: Fault,
    pub walk: Walk,
}

// A walk in numbers, going on or stopped: the layout so far, the place in the note, and the fault, any number (0: none), whose offset is then the place.
#[derive(Clone, Copy)]
pub struct State {
    pub lay: Layout,
    pub at: usize,
    pub fault: u8,
}

// What a group stands in: where that ends, the nesting of its members, and the rows of the groups round them.
#[derive(Clone, Copy)]
pub struct Around {
    pub end: usize,
    pub level: usize,
    pub rows: usize,
}

// A running total that may come to `bound`.
fn bounded(total: usize, bound: usize) -> Result<(), Fault>
    ensures { MatchResult result (λ _. total ≤ bound) (λ fault. (fault ≡ Bounds) × (bound < total)) }
{
    if total <= bound {
        Ok(())
    } else {
        Err(Fault::Bounds)
    }
}

// The running totals with this group, each against its bound.
fn check(lay: Layout, level: usize, rows: usize, h: u8, d: u8) -> Result<(), Fault>
    requires { Sound lay × (rows ≤ 16) }
    ensures { MatchResult result (λ _. bound_passed level rows h d lay ≡ 0) (λ fault. bound_passed level rows h d lay ≡ number fault) }
{
    let k = lay.k + usize::from(d);
    let n = k + lay.r + usize::from(h);
    bounded(lay.groups + 1, 16)?;
    bounded(level, 4)?;
    bounded(rows + usize::from(h), 16)?;
    bounded(k, 32)?;
    bounded(n, 48)
}

// The walk with a fault: any number, and the offset of the record at fault.
pub fn refuse(w: Walk, number: u8, offset: usize) -> State
    ensures { result ≡ refused_at number offset (walking w) }
{
    State {
        lay: w.lay,
        at: offset,
        fault: number,
    }
}

impl Walk {
    // The reader before the first record.
    pub fn start() -> Walk
        ensures { walking result ≡ at_start }
    {
        Walk {
            lay: empty(),
            at: 0,
        }
    }

    // The walk stopped by a fault, at the offset of the record at fault.
    pub fn stop(self, fault: Fault, offset: usize) -> Stopped
        ensures { stopped result ≡ refused_at (number fault) offset (walking self) }
    {
        let state = refuse(self, fault.number(), offset);
        Stopped {
            fault,
            walk: Walk {
                lay: state.lay,
                at: state.at,
            },
        }
    }

    // One group more, if the running totals allow it: d is 0 for a branch, and `step` bytes of the record are passed.
    pub fn enter(
        self,
        around: Around,
        h: u8,
        d: u8,
        len: usize,
        step: usize,
    ) -> Result<Walk, Stopped>
        requires { Enterable self around.rows step }
        ensures { walked result ≡ entered around.level around.rows h d len step (walking self) }
    {
        let mut lay = self.lay;
        if let Err(fault) = check(lay, around.level, around.rows, h, d) {
            return Err(self.stop(fault, self.at));
        }
        lay.list[lay.groups] = Group {
            h,
            d,
            len,
            row: around.rows,
            first: lay.k,
            redundant: lay.r,
            size: 1,
            count: usize::from(d),
        };
        lay.groups += 1;
        lay.k += usize::from(d);
        lay.r += usize::from(h);
        Ok(Walk {
            lay,
            at: self.at + step,
        })
    }

    // The branch `own` has ended: its size and its data blocks are known.
    pub fn close(self, own: usize) -> Walk
        requires { (own < self.lay.groups) × (self.lay.groups ≤ 16) }
        ensures { walking result ≡ closed own (walking self) }
    {
        let mut lay = self.lay;
        let g = lay.list[own];
        lay.list[own] = Group {
            size: lay.groups - own,
            count: lay.k.saturating_sub(g.first),
            ..g
        };
        Walk { lay, at: self.at }
    }
}

// The blank layout: every part of it is 0.
pub fn empty() -> Layout
    ensures { result ≡ blank }
{
    Layout::default()
}
