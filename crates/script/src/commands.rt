// The commands, each a letter and its fields.
ghost use Rattle.std.specs.Prelude.{◌<◌, ◌≤◌, length, IfSome};
ghost use Rattle.script.specs.Ends.{IsEnd};

use crate::fields::Fields;

// A command, with what its fields say.
#[derive(Clone, Copy)]
pub enum Command<'a> {
    Note(&'a [u8]),
    Alter(u8),
    Stand {
        len: usize,
        lost: u64,
    },
    Stripe(&'a [u8]),
    Spare(&'a [u8]),
    Junk(u8),
    Encode,
    Lose(usize),
    Plan(usize),
    Repair(usize),
    Rebuild,
    Correct {
        block: usize,
        offset: usize,
        difference: &'a [u8],
    },
    Fetch(usize),
    View(usize),
    Price {
        storage: u64,
        reads: u64,
    },
    Tell,
}

// The command of this letter, its fields coming after it; none if it is damaged.
fn after<'a>(letter: u8, fields: &mut Fields<'a>) -> Option<Command<'a>>
    ensures shorter { length fields.new.rest.now ≤ length fields.old.rest.now }
    ensures end { IsEnd fields.new.rest.now fields.old.rest.now }
{
    Some(match letter {
        b'N' => {
            let m = fields.short()?;
            Command::Note(fields.bytes(m)?)
        }
        b'A' => Command::Alter(fields.byte()?),
        b'S' => Command::Stand {
            len: fields.number()?,
            lost: fields.word()?,
        },
        b'B' => {
            let m = fields.long().filter(|m| *m <= 49152)?;
            Command::Stripe(fields.bytes(m)?)
        }
        b'Q' => {
            let m = fields.short().filter(|m| *m <= 2048)?;
            Command::Spare(fields.bytes(m)?)
        }
        b'J' => Command::Junk(fields.byte()?),
        b'E' => Command::Encode,
        b'O' => Command::Lose(fields.number()?),
        b'P' => Command::Plan(fields.number()?),
        b'R' => Command::Repair(fields.number()?),
        b'U' => Command::Rebuild,
        b'D' => {
            let block = fields.number()?;
            let offset = fields.number()?;
            let m = fields.short()?;
            Command::Correct {
                block,
                offset,
                difference: fields.bytes(m)?,
            }
        }
        b'F' => Command::Fetch(fields.number()?),
        b'V' => Command::View(fields.number()?),
        b'C' => Command::Price {
            storage: fields.word()?,
            reads: fields.word()?,
        },
        b'T' => Command::Tell,
        _ => return None,
    })
}

// The command that s starts with, and what follows it; none if it is damaged.
pub fn first<'a>(s: &'a [u8]) -> Option<(Command<'a>, &'a [u8])>
    ensures shorter { IfSome result (λ r. length r.1.now < length s.now) }
    ensures end { IfSome result (λ r. IsEnd r.1.now s.now) }
{
    let (letter, rest) = s.split_first()?;
    let mut fields = Fields { rest };
    let command = after(*letter, &mut fields)?;
    Some((command, fields.rest))
}
