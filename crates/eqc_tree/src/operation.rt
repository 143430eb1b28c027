//! The operations on two functions, and the numbers by which cached results name them.

/// An operation on two functions. Its number is the tag of a cached result.
#[derive(Clone, Copy, Debug, PartialEq, Eq)]
pub enum Op {
    /// Both.
    And = 1,
    /// At least one.
    Or = 2,
    /// Exactly one.
    Xor = 3,
    /// The first and not the second.
    AndNot = 4,
}

impl Op {
    ghost use Rattle.std.specs.Prelude.{◌≡◌, ◌≢◌, IfSome, IfNone};
    ghost use Rattle.eqc_tree.specs.Operation.{tag_of};

    /// The operation's number, from 1 to 4.
    pub fn tag(self) -> u8
        ensures { result ≡ tag_of self }
    {
        self as u8
    }

    /// The operation with this number, which is there for 1 to 4 alone.
    pub fn of_tag(tag: u8) -> Option<Op>
        ensures found { IfSome result (λ op. tag_of op ≡ tag) }
        ensures none { IfNone result ((op : Op) → tag_of op ≢ tag) }
    {
        match tag {
            1 => Some(Op::And),
            2 => Some(Op::Or),
            3 => Some(Op::Xor),
            4 => Some(Op::AndNot),
            _ => None,
        }
    }
}
