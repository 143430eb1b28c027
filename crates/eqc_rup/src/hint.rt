//! What a clause is shown by.

/// A clause that is unit or false in its turn, where the literals of the clause in question are
/// false.
#[derive(Clone, Copy, Debug)]
pub enum Hint {
    /// A clause of the store, by its number.
    Clause(u32),
    /// A clause of a node of the graph. Of n = and(a, b) side 0 is (not n, a), 1 is (not n, b), and
    /// 2 is (n, not a, not b). Of n = xor(a, b) side s, from 0 to 3, is the clause that forbids a =
    /// s % 2 and b = s / 2 with the n that is wrong for them. Of the constant n side 0 is (not n).
    /// Other nodes and sides have no clause.
    Gate { node: u32, side: u32 },
}
