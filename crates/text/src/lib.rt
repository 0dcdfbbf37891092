// Text, put into a buffer at a place. The caller sees to the room.
#![tactic(auto)]

ghost use Rattle.std.specs.Prelude.{[], ◌∷◌, ◌<◌, ◌≤◌, length};
ghost use Rattle.text.specs.Text.{decimal, numbered_text, refused_text, layout_text, item_text, items_text};
ghost use Rattle.text.specs.Put.{HasRoom, Writes};

// A lent buffer, and where the next text goes in it.
#[derive(Drop)]
pub struct Writer<'a> {
    pub out: &'a mut [u8],
    pub at: usize,
}

impl Writer<'_> {
    // A byte.
    pub fn put(&mut self, x: u8)
        requires { HasRoom (x ∷ []) self.old }
        ensures { Writes (x ∷ []) self.old self.new }
    {
        self.out[self.at] = x;
        self.at += 1;
    }

    // A word.
    pub fn put_word(&mut self, word: &[u8])
        requires { HasRoom word.now self.old }
        ensures { Writes word.now self.old self.new }
    {
        let end = self.at + word.len();
        self.out[self.at..end].copy_from_slice(word);
        self.at = end;
    }

    // A number in decimal.
    // Stays: digits by hand, since `write!` would need an error for a full buffer, and of each caller a case for the `Err` that never comes.
    pub fn put_decimal(&mut self, x: u8)
        requires { HasRoom (decimal x) self.old }
        ensures { Writes (decimal x) self.old self.new }
    {
        if x < 10 {
            self.put(48 + x);
            return;
        }
        if x < 100 {
            self.put(48 + x / 10);
            self.put(48 + x % 10);
            return;
        }
        self.put(48 + x / 100);
        self.put(48 + x / 10 % 10);
        self.put(48 + x % 10);
    }

    // A word, a number, and a byte behind it.
    fn put_numbered(&mut self, word: &[u8], x: u8, last: u8)
        requires { HasRoom (numbered_text word.now x last) self.old }
        ensures { Writes (numbered_text word.now x last) self.old self.new }
    {
        self.put_word(word);
        self.put_decimal(x);
        self.put(last);
    }

    // A refusal, of a note or of a call.
    // Stays: its number. Two enums come here, Fault and Refusal, from one caller: a trait for the two would say less in more lines.
    pub fn put_refused(&mut self, number: u8)
        requires { HasRoom (refused_text number) self.old }
        ensures { Writes (refused_text number) self.old self.new }
    {
        self.put_numbered(b"refused ", number, b'\n');
    }

    // The line of a layout.
    pub fn put_layout(&mut self, k: u8, n: u8)
        requires { HasRoom (layout_text k n) self.old }
        ensures { Writes (layout_text k n) self.old self.new }
    {
        self.put_numbered(b"layout ", k, b' ');
        self.put_decimal(n);
        self.put(b'\n');
    }

    // A block that a plan reads, with its coefficient.
    fn put_item(&mut self, s: u8, c: u8)
        requires { HasRoom (item_text s c) self.old }
        ensures { Writes (item_text s c) self.old self.new }
    {
        self.put(b' ');
        self.put_decimal(s);
        self.put(b'*');
        self.put_decimal(c);
    }

    // The first `reads` blocks of a plan.
    // Stays: two lists and a count (docs/PROMISES.md). A `plan::Plan` would ask for lists of 32, and for plan below text.
    pub fn put_items(&mut self, block: &[u8], coef: &[u8], reads: usize)
        requires reads_in_bounds { (reads ≤ length block.now) × (reads ≤ length coef.now) }
        requires room { HasRoom (items_text block.now coef.now reads) self.old }
        ensures { Writes (items_text block.now coef.now reads) self.old self.new }
    {
        for (&s, &c) in block[..reads].iter().zip(&coef[..reads]) {
            self.put_item(s, c);
        }
    }
}
