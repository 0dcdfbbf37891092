// The field of 256 elements and the scaled addition of document 01, "Field and coefficients".
#![tactic(auto)]

mod logs;
mod powers;

ghost use Rattle.std.specs.Prelude.{◌≡◌, ◌<◌, length};
ghost use Rattle.field.specs.Field.{mul, inv, coef};
ghost use Rattle.field.specs.Scaled.{scaled_add};

// Stays: a byte is made a usize by `as`, here and in linear. With usize::from, tried, each proof has a call more to go through, and the code says no more.
pub fn mul(a: u8, b: u8) -> u8
    ensures { result ≡ mul a b }
{
    if a == 0 || b == 0 {
        return 0;
    }
    powers::power_at((logs::log_of(a) as usize + logs::log_of(b) as usize) % 255)
}

pub fn inv(a: u8) -> u8
    ensures { result ≡ inv a }
{
    if a == 0 {
        return 0;
    }
    powers::power_at((255 - logs::log_of(a) as usize) % 255)
}

// The coefficient of row j at data block i: the inverse of what the points 128 + j and i differ by.
pub fn coef(j: u8, i: u8) -> u8
    requires { (j < 16) × (i < 32) }
    ensures { result ≡ coef j i }
{
    inv((128 + j) ^ i)
}

// dst plus c times src, position by position.
// Stays: an index by enumerate. A zip of iter_mut and src was tried: a proof does not know what it wrote, and `returns` stays open.
pub fn scaled_add(dst: &mut [u8], src: &[u8], c: u8)
    requires { length src.now ≡ length dst.old }
    ensures { dst.new ≡ scaled_add dst.old c src.now }
{
    for (i, d) in dst.iter_mut().enumerate() {
        *d ^= mul(c, src[i]);
    }
}
