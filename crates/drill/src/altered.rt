// One field of a layout altered: it becomes one more, and the largest number 0.
// Stays: fields are numbers, which a script names them by (docs/DRILL.md): eight of each of sixteen groups and three more, of which an enum would list 131.
use groups::{Group, Layout};

// Alters field j of a group.
fn group(g: &mut Group, j: usize) {
    match j {
        0 => g.h = g.h.wrapping_add(1),
        1 => g.d = g.d.wrapping_add(1),
        2 => g.len = g.len.wrapping_add(1),
        3 => g.row = g.row.wrapping_add(1),
        4 => g.first = g.first.wrapping_add(1),
        5 => g.redundant = g.redundant.wrapping_add(1),
        6 => g.size = g.size.wrapping_add(1),
        _ => g.count = g.count.wrapping_add(1),
    }
}

// Alters field f; a larger one than there is alters nothing.
pub fn field(l: &mut Layout, f: u8) {
    match f {
        0 => l.groups = l.groups.wrapping_add(1),
        1 => l.k = l.k.wrapping_add(1),
        2 => l.r = l.r.wrapping_add(1),
        _ => {
            let inside = usize::from(f) - 3;
            if let Some(g) = l.list.get_mut(inside / 8) {
                group(g, inside % 8);
            }
        }
    }
}
