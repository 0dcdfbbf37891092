// Which layouts notes give: refusal 6 of document 01 is for the others.
#![tactic(auto)]

mod writer;

ghost use Rattle.given.specs.Given.{Given, Tells};
ghost use Rattle.given.specs.Inner.{IsNote};

use groups::Layout;

// Whether a note gives a layout.
// Stays: a match. is_ok_and was tried, and what its closure claims stays open.
fn gives(note: &[u8], l: Layout) -> bool
    ensures { Tells result (IsNote l note.now) }
{
    match note::read_note(note) {
        Ok(read) => read == l,
        Err(_) => false,
    }
}

// Whether some accepted note gives a layout: refusal 6 is for the others. No other note than the layout's own could give it, and that is read again;
// 16 groups take 96 bytes or fewer.
pub fn known(l: Layout) -> bool
    ensures { Tells result (Given l) }
{
    if 16 < l.groups {
        return false;
    }
    let mut buf = [0u8; 96];
    let n = writer::put_headers(&mut buf, &l.list[..l.groups]);
    gives(&buf[..n], l)
}
