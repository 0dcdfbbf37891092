// The writer of a layout's note: the headers of its groups.
ghost use Rattle.std.specs.Prelude.{◌≡◌, ◌+◌, ◌≤◌, length};
ghost use Rattle.std.proofs.lemmas.List.Edits.{sets};
ghost use Rattle.given.specs.Given.{head_bytes, headers};

use groups::Group;

// Stays: a buffer and a place, of two functions. A struct would be built for one call.
// Writes the header of a group at a place, and returns the next place.
fn put_head(buf: &mut [u8; 96], at: usize, g: &Group) -> usize
    requires { at + 6 ≤ 96 }
    ensures { (buf.new ≡ sets buf.old at (head_bytes g.now)) × (result ≡ at + length (head_bytes g.now)) }
{
    if g.d == 0 {
        let len = g.len.to_le_bytes();
        buf[at..at + 5].copy_from_slice(&[len[0], len[1], 2, 0, g.h]);
        at + 5
    } else {
        buf[at..at + 6].copy_from_slice(&[4, 0, 1, 0, g.h, g.d]);
        at + 6
    }
}

// Writes the headers of groups at the front of a buffer, and returns their length. Of a layout's groups they are its note.
pub fn put_headers(buf: &mut [u8; 96], groups: &[Group]) -> usize
    requires { length groups.now ≤ 16 }
    ensures { (buf.new ≡ sets buf.old 0 (headers groups.now)) × (result ≡ length (headers groups.now)) × (result ≤ 96) }
{
    let mut at = 0;
    for g in groups {
        at = put_head(buf, at, g);
    }
    at
}
