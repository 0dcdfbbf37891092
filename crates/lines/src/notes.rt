// A note that is asked about.
use crate::show::Output;
use groups::Layout;
use note::Refused;
use std::io::Write;

// Reads a note and says what came of it: `given` and k and n, or `not` and the refusal and its place. Answers the layout to go on with.
pub fn read<W: Write>(
    to: &mut Output<W>,
    bytes: &[u8],
    l: Layout,
    given: &[u8],
    not: &[u8],
) -> Layout {
    match note::read_note(bytes) {
        Ok(read) => {
            let k = read.k;
            // in a layout that a note gives both are small
            let n = k.saturating_add(read.r);
            to.text(given);
            to.print(format_args!("{k} n {n}\n"));
            read
        }
        Err(Refused { fault, offset }) => {
            let number = fault.number();
            to.text(not);
            to.print(format_args!("{number} at {offset}\n"));
            l
        }
    }
}
