// Reads a note, L, lost marks and a stripe from standard input, and writes which blocks are lost and the plan of each. An input that is longer than
// the buffer is longer than any sound one too.
#![tactic(auto)]

use lines::source;
use std::io;

fn main(rt: HostRuntime) -> io::Result<()> {
    let mut input = [0u8; 65536];
    let n = source::read_full(&mut rt.stdin(), &mut input)?;
    let mut out = [0u8; 65536];
    let m = report::report(&input[..n], &mut out);
    rt.write_all(&out[..m])
}
