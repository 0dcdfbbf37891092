// Buffers of a fixed room.
ghost use Rattle.std.specs.Prelude.{◌≡◌, ◌≤◌, take};

// A number of bytes, at most N. It stands apart from the bytes, since the check has no rule yet for an array that is lent out of a struct with a ghost field.
#[derive(Clone, Copy)]
pub struct Count<const N: usize> {
    pub number: usize,
    ghost fits: { number ≤ N },
}

// Room for N bytes, of which the first are in use.
#[derive(Drop)]
pub struct Buffer<const N: usize> {
    pub bytes: [u8; N],
    pub used: Count<N>,
}

impl<const N: usize> Buffer<N> {
    pub fn new() -> Self
        ensures { result.used.number ≡ 0 }
    {
        Buffer {
            bytes: [0; N],
            used: Count { number: 0 },
        }
    }

    // The bytes in use.
    pub fn part(&self) -> &[u8]
        ensures { result.now ≡ take self.now.used.number self.now.bytes }
    {
        &self.bytes[..self.used.number]
    }

    // Lays bytes at the start, as many as fit; these are in use from then on.
    pub fn lay(&mut self, bytes: &[u8])
        ensures { take self.new.used.number self.new.bytes ≡ take N bytes.now }
    {
        let number = bytes.len().min(N);
        // Stays: byte by byte. Copied as a whole they would need a third function of the C library, `memmove`.
        for i in 0..number {
            self.bytes[i] = bytes[i];
        }
        self.used = Count { number };
    }
}
