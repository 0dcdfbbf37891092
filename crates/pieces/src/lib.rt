// Combinations of blocks, and blocks written from them. Nothing here knows of a call.
#![tactic(auto)]

pub mod encoding;

ghost use Rattle.std.specs.Prelude.{◌≡◌, ◌+◌, ◌<◌, ◌≤◌, length};
ghost use Rattle.pieces.specs.Pieces.{Sources, Added, Combined, Makeable, Gathered, Made};

// Adds block s times its coefficient. A block whose coefficient is zero is passed over, so that a lost block's bytes are never read.
fn add_block(acc: &mut [u8], stripe: &[u8], coef: &[u8], len: usize, from: usize, s: usize)
    requires sources { Sources stripe.now coef.now len }
    requires acc_bound { from + length acc.old ≤ len }
    requires s_in_bounds { s < length coef.now }
    ensures { Added coef.now stripe.now len from s acc.old acc.new }
{
    let c = coef[s];
    if c == 0 {
        return;
    }
    let at = s * len + from;
    field::scaled_add(acc, &stripe[at..at + acc.len()], c);
}

// Adds coefficient times block for every block, at the positions from `from` on. The start makes room for blocks that come in pieces.
// Stays: blocks by number. chunks_exact asks a length that is not 0, and this takes 0 too.
// Stays: stripe, coef and len are no struct of three, here and in `gather`: `make` writes the stripe that the struct would hold lent.
pub fn combine(acc: &mut [u8], stripe: &[u8], coef: &[u8], len: usize, from: usize)
    requires sources { Sources stripe.now coef.now len }
    requires acc_bound { from + length acc.old ≤ len }
    ensures { Combined coef.now stripe.now len from (length coef.now) acc.old acc.new }
{
    for s in 0..coef.len() {
        add_block(acc, stripe, coef, len, from, s);
    }
}

// Fills `out`, whatever it held, with the whole combination.
pub fn gather(out: &mut [u8], stripe: &[u8], coef: &[u8], len: usize)
    requires sources { Sources stripe.now coef.now len }
    requires out_len { (length out.old ≡ len) × (len ≤ 1024) }
    ensures { Gathered coef.now stripe.now len out.new }
{
    out.fill(0);
    combine(out, stripe, coef, len, 0);
}

// Writes block b from the blocks as they are. It is made beside the stripe and then copied in: two parts of one slice cannot be lent at once.
pub fn make(stripe: &mut [u8], coef: &[u8], len: usize, b: usize)
    requires { Makeable stripe.old coef.now len b }
    ensures { Made coef.now len b stripe.old stripe.new }
{
    let mut block = [0u8; 1024];
    combine(&mut block[..len], stripe, coef, len, 0);
    let at = b * len;
    stripe[at..at + len].copy_from_slice(&block[..len]);
}
