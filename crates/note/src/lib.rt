// The layout note of document 01: reading one.
#![tactic(auto)]

pub mod reader;

ghost use Rattle.std.specs.Prelude.{◌≡◌};
ghost use Rattle.groups.specs.Groups.{walked};
ghost use Rattle.note.specs.Note.{finish, read_note, outcome, reading};
ghost use Rattle.note.specs.Note.Outcome.{refusal};

use groups::{Around, Fault, Layout, Stopped, Walk};

// Why a note is refused: the fault, and the offset of the record at fault.
#[derive(Clone, Copy, PartialEq, Eq)]
pub struct Refused {
    pub fault: Fault,
    pub offset: usize,
}

// What reading a note says in numbers: accepted, or refused by a number, with the offset of the record at fault; and the layout, of a refused note the
// blank one.
#[derive(Clone, Copy)]
pub struct Reading {
    pub answer: Result<(), (u8, usize)>,
    pub layout: Layout,
}

impl Reading {
    // A refusal, by any number: the layout is then the blank one.
    pub fn refused(number: u8, offset: usize) -> Reading
        ensures { result ≡ reading (refusal number offset) }
    {
        Reading {
            answer: Err((number, offset)),
            layout: groups::empty(),
        }
    }
}

impl From<Stopped> for Refused {
    ghost from_gives = { λ e r. r ≡ record { fault = e.fault; offset = e.walk.at } };

    fn from(e: Stopped) -> Refused {
        Refused {
            fault: e.fault,
            offset: e.walk.at,
        }
    }
}

// The end of the reading of a note of `size` bytes: a fault, bytes after the top record, at the first of them, or the layout.
pub fn finish(size: usize, read: Result<Walk, Stopped>) -> Result<Layout, Refused>
    ensures { outcome result ≡ finish size (walked read) }
{
    let w = read?;
    if w.at < size {
        return Err(Refused {
            fault: Fault::Extra,
            offset: w.at,
        });
    }
    Ok(w.lay)
}

// Reads a note. The top record's nesting is 1, and no rows stand round it.
pub fn read_note(note: &[u8]) -> Result<Layout, Refused>
    ensures { outcome result ≡ read_note note.now }
{
    let around = Around {
        end: note.len(),
        level: 1,
        rows: 0,
    };
    finish(note.len(), reader::read_group(note, Walk::start(), around))
}
