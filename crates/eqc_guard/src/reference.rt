//! A name that a worker holds.

/// A node's number or a constant's, that a worker holds and has to give back.
pub struct Ref {
    pub(crate) number: u32,
}

impl Ref {
    ghost use Rattle.std.specs.Prelude.{◌≡◌};

    /// The number: 0 is false, 1 is true, and a node's is from 2 upwards.
    pub fn number(&self) -> u32
        ensures { result ≡ self.now.number }
    {
        self.number
    }

    /// The number alone. What is held stays held.
    pub fn into_number(self) -> u32
        ensures { result ≡ self.number }
    {
        let Ref { number } = self;
        number
    }
}
