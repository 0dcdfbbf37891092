// The reader of a note: it holds its place, and member reading and group reading call each other.
ghost use Rattle.std.specs.Prelude.{◌≡◌, length};
ghost use Rattle.groups.specs.Groups.{walking, walked};
ghost use Rattle.note.specs.Note.{head_of, head_at, group_read, members_read};
ghost use Rattle.note.specs.Inner.{Ready, InBranch};

use groups::{Around, Fault, Stopped, Walk};

// A record: a leaf, or a branch with the length that it gives.
#[derive(Clone, Copy)]
enum Record {
    Leaf { h: u8, d: u8 },
    Branch { h: u8, len: usize },
}

// The record at the front of what is left of a branch or note, by document 01's checks in their order.
fn read_head(left: &[u8]) -> Result<Record, Fault>
    ensures { head_of result ≡ head_at left.now 0 (length left.now) }
{
    let [len_low, len_high, kind_low, kind_high, ..] = left else {
        return Err(Fault::End); // fewer than 4 bytes remain
    };
    let len = usize::from(u16::from_le_bytes([*len_low, *len_high]));
    let kind = u16::from_le_bytes([*kind_low, *kind_high]);
    let room = left.len() - 2; // what the length may come to
    if len < 2 {
        return Err(Fault::Body); // length below 2
    }
    if room < len {
        return Err(Fault::End); // it runs past the end
    }
    let body = &left[4..2 + len];
    match (kind, body) {
        (1, [h, d]) if *d != 0 => Ok(Record::Leaf { h: *h, d: *d }),
        (1, _) => Err(Fault::Body), // leaf length not 4, or no data block
        (2, [h, ..]) => Ok(Record::Branch { h: *h, len }),
        (2, []) => Err(Fault::Body), // branch length below 3
        _ => Err(Fault::Kind),
    }
}

// Reads the record at the place as a group, in what it stands in.
#[cycle(read_group_read_members)]
pub fn read_group(note: &[u8], w: Walk, around: Around) -> Result<Walk, Stopped>
    requires { Ready (length note.now) around.end around.level around.rows w }
    ensures { walked result ≡ group_read note.now around.end around.level around.rows (walking w) }
{
    match read_head(&note[w.at..around.end]) {
        Err(fault) => Err(w.stop(fault, w.at)),
        Ok(Record::Leaf { h, d }) => w.enter(around, h, d, 4, 6),
        Ok(Record::Branch { h, len }) => {
            let v = w.enter(around, h, 0, len, 5)?;
            let end = w.at + 2 + len;
            let inside = Around {
                end,
                level: around.level + 1,
                rows: around.rows + usize::from(h),
            };
            read_members(note, v, inside, w.lay.groups, w.at, 0)
        }
    }
}

// Reads what is left of a branch as its members: the branch is group `own`, starts at `start`, and has had `count` members.
#[cycle(read_group_read_members)]
fn read_members(
    note: &[u8],
    w: Walk,
    around: Around,
    own: usize,
    start: usize,
    count: usize,
) -> Result<Walk, Stopped>
    requires ready { Ready (length note.now) around.end around.level around.rows w }
    requires in_branch { InBranch own count w }
    ensures { walked result ≡ members_read note.now around.end around.level around.rows own start count (walking w) }
{
    if w.at == around.end {
        if count < 2 {
            return Err(w.stop(Fault::Body, start));
        }
        return Ok(w.close(own));
    }
    let v = read_group(note, w, around)?;
    read_members(note, v, around, own, start, count + 1)
}
