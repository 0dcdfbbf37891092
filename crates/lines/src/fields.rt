// Bytes and numbers out of a question, the lowest byte first. A missing byte is 0.

// Byte i; a missing one is 0.
pub fn at(bytes: &[u8], i: usize) -> u8 {
    bytes.get(i).copied().unwrap_or(0)
}

// The bytes from i on.
pub fn from(bytes: &[u8], i: usize) -> &[u8] {
    bytes.get(i..).unwrap_or(&[])
}

// The eight bytes from i on as a number.
pub fn word(bytes: &[u8], i: usize) -> u64 {
    let mut eight = [0; 8];
    for (x, y) in eight.iter_mut().zip(from(bytes, i)) {
        *x = *y;
    }
    u64::from_le_bytes(eight)
}
