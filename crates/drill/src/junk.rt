// Junk in the place of lost blocks, so that a call that reads one is told apart.
use plan::Standing;

// Adds x to the bytes of lost blocks.
pub fn spoil(stripe: &mut [u8], st: Standing, x: u8) {
    if st.len == 0 {
        return;
    }
    for (b, block) in stripe.chunks_mut(st.len).enumerate() {
        if b < 64 && marks::holds(st.lost, b) {
            for byte in block {
                *byte = byte.wrapping_add(x);
            }
        }
    }
}
