// The fields of a command, one after another, the lowest byte of a number first.
ghost use Rattle.std.specs.Prelude.{◌<◌, ◌≤◌, length, IfSome};
ghost use Rattle.script.specs.Ends.{IsEnd};

// What stands behind the fields that were taken.
#[derive(Drop)]
pub struct Fields<'a> {
    pub rest: &'a [u8],
}

// Stays: a method for each size of number. One over num_traits' FromBytes would have each command name the type of each of its fields.
#[tactic(auto, using(crate::proofs::Ends::end_whole, crate::proofs::Ends::end_behind))]
impl<'a> Fields<'a> {
    // The next N bytes.
    pub fn take<const N: usize>(&mut self) -> Option<[u8; N]>
        ensures shorter { length self.new.rest.now ≤ length self.old.rest.now }
        ensures end { IsEnd self.new.rest.now self.old.rest.now }
    {
        let (bytes, rest) = self.rest.split_first_chunk()?;
        self.rest = rest;
        Some(*bytes)
    }

    // The next n bytes.
    pub fn bytes(&mut self, n: usize) -> Option<&'a [u8]>
        ensures shorter { length self.new.rest.now ≤ length self.old.rest.now }
        ensures end { IsEnd self.new.rest.now self.old.rest.now }
    {
        let (bytes, rest) = self.rest.split_at_checked(n)?;
        self.rest = rest;
        Some(bytes)
    }

    pub fn byte(&mut self) -> Option<u8>
        ensures shorter { length self.new.rest.now ≤ length self.old.rest.now }
        ensures end { IsEnd self.new.rest.now self.old.rest.now }
    {
        self.take().map(u8::from_le_bytes)
    }

    // A number of two bytes.
    pub fn short(&mut self) -> Option<usize>
        ensures bound { IfSome result (λ n. n < 65536) }
        ensures shorter { length self.new.rest.now ≤ length self.old.rest.now }
        ensures end { IsEnd self.new.rest.now self.old.rest.now }
    {
        Some(usize::from(u16::from_le_bytes(self.take()?)))
    }

    // A number of four bytes.
    pub fn long(&mut self) -> Option<usize>
        ensures bound { IfSome result (λ n. n < 4294967296) }
        ensures shorter { length self.new.rest.now ≤ length self.old.rest.now }
        ensures end { IsEnd self.new.rest.now self.old.rest.now }
    {
        Some(u32::from_le_bytes(self.take()?) as usize)
    }

    // A number of eight bytes.
    pub fn word(&mut self) -> Option<u64>
        ensures shorter { length self.new.rest.now ≤ length self.old.rest.now }
        ensures end { IsEnd self.new.rest.now self.old.rest.now }
    {
        Some(u64::from_le_bytes(self.take()?))
    }

    // A number of eight bytes for a block, a place or a length.
    pub fn number(&mut self) -> Option<usize>
        ensures shorter { length self.new.rest.now ≤ length self.old.rest.now }
        ensures end { IsEnd self.new.rest.now self.old.rest.now }
    {
        Some(self.word()? as usize)
    }
}
