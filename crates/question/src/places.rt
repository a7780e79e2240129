//! The places of a joint sample.
ghost use Rattle.std.specs.Prelude.{◌≡◌, ◌+◌, ◌-◌, ◌<◌, ◌≤◌, [], ◌∷◌, ◌++◌, length, drop, replicate};

pub mod read;

/// One place number or more, in the order of the line; a line of 80 bytes has room for 38.
///
/// What stands after them in the table is 0, so that equal places are equal values.
// A table and a count, and no ArrayVec: a question is Copy, and an ArrayVec is not.
#[derive(Clone, Copy, PartialEq, Eq, Debug)]
pub struct Places {
    items: [u32; 38],
    count: usize,
    ghost sized: { length items ≡ 38 },
    ghost some: { 0 < count },
    ghost bounded: { count ≤ 38 },
    ghost blank: { drop count items ≡ replicate (38 - count) 0 },
}

impl Places {
    ghost use Rattle.question.specs.Questions.{places_of};

    /// The places in the order of the line.
    pub fn as_slice(&self) -> &[u32]
        ensures { result.now ≡ places_of self.now }
    {
        &self.items[..self.count]
    }

    /// One place alone.
    fn one(place: u32) -> Places
        ensures { places_of result ≡ place ∷ [] }
    {
        let mut items = [0; 38];
        items[0] = place;
        Places { items, count: 1 }
    }

    /// Adds a place after the others.
    fn push(&mut self, place: u32)
        requires { length (places_of self.old) < 38 }
        ensures { places_of self.new ≡ places_of self.old ++ place ∷ [] }
    {
        self.items[self.count] = place;
        self.count += 1;
    }
}
