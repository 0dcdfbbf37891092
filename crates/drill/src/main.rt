// Runs a script of calls on one layout, one standing, one stripe and one spare. Each command is a letter, then its fields; numbers are little-endian,
// and u8 to u64 are 1 to 8 bytes. Each writes a line.
//   N u16 m, m bytes  reads the bytes as a note; an accepted one's layout is kept
//   A u8 f            alters field f of the layout
//   S u64 L, u64 marks  sets the standing
//   B u32 m, m bytes  sets the stripe; m is at most 49152
//   Q u16 m, m bytes  sets the spare; m is at most 2048
//   J u8 x            adds x to every byte of the stripe that stands where a lost block is
//   E                 encode
//   O u64 block       lose
//   P u64 block       plan
//   R u64 block       repair
//   U                 rebuild
//   D u64 block, u64 offset, u16 m, m bytes  correct
//   F u64 block       fetch
//   V u64 block       view
//   C u64 storage, u64 reads  price; a limit is the f64 of these 64 bits
//   T                 writes the state
// A letter that is none of these, a command that the script ends inside, and a stripe or a spare that is too long end the run.
#![tactic(auto)]

mod altered;
mod buffer;
mod junk;
mod kept;

use kept::Kept;
use lines::show::Output;
use lines::source;
use script::commands;
use std::io;
use std::io::Write;

// Does command after command, up to one that is damaged.
fn each<W: Write>(to: &mut Output<W>, s: &[u8]) {
    let mut kept = Kept::new();
    let mut rest = s;
    while !rest.is_empty() {
        let Some((command, after)) = commands::first(rest) else {
            let at = s.len() - rest.len();
            to.print(format_args!("damaged at {at}\n"));
            return;
        };
        kept.run(to, command);
        rest = after;
    }
}

// Stays: the two programs that ask one thing after another have this main. A shared one would take `each` as a closure, and say no less.
fn main(rt: HostRuntime) -> io::Result<()> {
    let mut buf = [0u8; 65536];
    let n = source::read_full(&mut rt.stdin(), &mut buf)?;
    let mut to = Output::new(io::writer(&rt));
    each(&mut to, &buf[..n]);
    to.finish()
}
