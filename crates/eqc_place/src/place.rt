//! What is told of the place of a difference, and of signals that are proved equal.

/// A step of the other netlist that is proved to have the same value, or the opposite one, under
/// all values of the inputs that the assumption allows, and under all of them without an
/// assumption.
#[derive(Clone, Copy, Debug)]
pub struct Partner {
    pub step: u32,
    pub is_opposite: bool,
}

/// A column of a place's cover: its step, its value under the assignment of the difference, and its
/// partner, where one is known.
#[derive(Clone, Copy, Debug)]
pub struct Column {
    pub step: u32,
    pub value: bool,
    pub partner: Option<Partner>,
}

/// A step of the other netlist that has the wanted value, or the opposite one, in so many simulated
/// assignments, and in no other that tells.
#[derive(Clone, Copy, Debug)]
pub struct Mending {
    pub step: u32,
    pub is_opposite: bool,
    pub assignments: u32,
}

/// A step at which an output may begin to differ, with its value under the assignment of the
/// difference.
#[derive(Drop)]
pub struct Place {
    pub step: u32,
    pub value: bool,
    pub columns: Vec<Column>,
    /// In so many simulated assignments under which the output differs it wouldn't if the step had
    /// the opposite value.
    pub mended: u32,
    /// In so many of the first of them no other cover of the same columns would do, since these
    /// want two values for the same ones.
    pub torn: u32,
}

/// A step of the first netlist with its partner in the second one.
#[derive(Clone, Copy, Debug)]
pub struct Meeting {
    pub step: u32,
    pub partner: Partner,
}

/// Up to where two netlists are known to be equal below some of their outputs.
#[derive(Drop)]
pub struct Border {
    /// Steps that are reached from these outputs back by steps without partners, the nearest first.
    pub meetings: Vec<Meeting>,
    /// So many inputs are reached in the same way, by themselves or by signals that have their
    /// values.
    pub inputs: usize,
    /// So many of these outputs are left: the others were found equal on the way.
    pub outputs: usize,
}

/// The places of a difference, first those at which it is most likely to begin, and in how many
/// simulated assignments the output differs.
#[derive(Drop)]
pub struct Places {
    pub each: Vec<Place>,
    /// What would mend each, in their order.
    pub mendings: Vec<Option<Mending>>,
    pub differing: u32,
}
