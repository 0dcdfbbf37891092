// The program's input: where the note ends, and the length, the marks and the blocks that follow it.
#![tactic(auto)]

ghost use Rattle.std.specs.Prelude.{◌≡◌, ◌<◌, ◌≤◌, length};
ghost use Rattle.note.specs.Note.{word, length_at};
ghost use Rattle.given.specs.Given.{Tells};
ghost use Rattle.input.specs.Input.{standing_in, Whole};
ghost use Rattle.input.specs.Inner.{Parted};

use plan::Standing;

// The number in the first two bytes.
fn word(s: &[u8]) -> usize
    requires { 2 ≤ length s.now }
    ensures { (result ≡ word s.now 0 1) × (result < 65536) }
{
    usize::from(u16::from_le_bytes([s[0], s[1]]))
}

// Where the part of the input ends that the note reader gets.
pub fn note_end(input: &[u8]) -> usize
    ensures { Parted input.now result }
{
    let size = input.len();
    if size < 4 {
        return size;
    }
    (2 + word(input)).clamp(4, size)
}

// Whether the length of the top record, if it is there, is not more than 254.
pub fn readable(input: &[u8]) -> bool
    ensures { Tells result (2 ≤ length input.now → length_at input.now 0 ≤ 254) }
{
    input.len() < 2 || word(input) <= 254
}

// Whether L is in range, and L, the marks and n blocks of L bytes are all there is.
pub fn whole(rest: &[u8], n: usize) -> bool
    requires { n ≤ 48 }
    ensures { Tells result (Whole n rest.now) }
{
    if rest.len() < 10 {
        return false;
    }
    let len = word(rest);
    (1..=1024).contains(&len) && rest.len() == 10 + n * len
}

// L and the marks.
pub fn standing_in(rest: &[u8]) -> Standing
    requires { 10 ≤ length rest.now }
    ensures { result ≡ standing_in rest.now }
{
    let mut marks = [0u8; 8];
    marks.copy_from_slice(&rest[2..10]);
    Standing {
        len: word(rest),
        lost: u64::from_le_bytes(marks),
    }
}
