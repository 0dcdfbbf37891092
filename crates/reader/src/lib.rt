// The reader of a note: it is started, reads the group at its place, any place, and is moved behind it. A note is read through it.
#![tactic(auto)]

ghost use Rattle.std.specs.Prelude.{◌≡◌};
ghost use Rattle.groups.specs.Groups.{walked};
ghost use Rattle.note.specs.Note.{read_note, outcome};
ghost use Rattle.reader.specs.Reader.{group_from, started, group_here, past_group};

use groups::{Around, Fault, Layout, Stopped, Walk};
use note::Refused;

// A reference to the note's bytes, and a cursor.
#[derive(Clone, Copy)]
pub struct Reader<'a> {
    pub note: &'a [u8],
    pub at: usize,
}

impl<'a> Reader<'a> {
    // The reader at the first byte of a note.
    pub fn start(note: &'a [u8]) -> Reader<'a>
        ensures { result ≡ started note.entry }
    {
        Reader { note, at: 0 }
    }

    // The group at the reader's place, read as a top record: its layout, and the place behind it; or the fault found.
    pub fn group(self) -> Result<Walk, Stopped>
        ensures { walked result ≡ group_here self.entry }
    {
        let w = Walk {
            lay: groups::empty(),
            at: self.at,
        };
        if self.note.len() < self.at {
            return Err(w.stop(Fault::End, self.at));
        }
        let around = Around {
            end: self.note.len(),
            level: 1,
            rows: 0,
        };
        note::reader::read_group(self.note, w, around)
    }

    // The reader moved behind the group at its place, or to the offset of the fault.
    pub fn behind(self) -> Reader<'a>
        ensures { result ≡ past_group self.entry }
    {
        let at = match self.group() {
            Ok(w) => w.at,
            Err(e) => e.walk.at,
        };
        Reader {
            note: self.note,
            at,
        }
    }
}

// The first group of a note.
pub fn top(note: &[u8]) -> Result<Walk, Stopped>
    ensures { walked result ≡ group_from note.now 0 }
{
    Reader::start(note).group()
}

// Reads a note, judged by its first group: a fault, bytes after it, or its layout.
pub fn read(note: &[u8]) -> Result<Layout, Refused>
    ensures { outcome result ≡ read_note note.now }
{
    note::finish(note.len(), top(note))
}
