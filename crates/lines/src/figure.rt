// The limits and the figures of a price.
use std::fmt;
use std::fmt::{Display, Formatter};

// The number of these 64 bits. Where its exponent is all ones and its fraction is not 0 it is a not-a-number.
// Stays: told by the bits, since `from_bits` asks that they are none of these.
pub fn limit(bits: u64) -> f64 {
    if bits % 0x8000_0000_0000_0000 <= 0x7ff0_0000_0000_0000 {
        f64::from_bits(bits)
    } else {
        f64::NAN
    }
}

// The smallest number below 2048 whose quotient by k is x.
pub fn numerator(x: f64, k: u32) -> Option<u32> {
    (0..2048).find(|q| x == f64::from(*q) / f64::from(k))
}

// A figure as a fraction over k; its numerator is 2048 where there is none below that.
#[derive(Clone, Copy)]
pub struct Fraction {
    pub x: f64,
    pub k: u32,
}

impl Display for Fraction {
    fn fmt<W: fmt::Write>(&self, f: &mut Formatter<W>) -> fmt::Result {
        let q = numerator(self.x, self.k).unwrap_or(2048);
        let k = self.k;
        write!(f, "{q}/{k}")
    }
}
