//! Laws of the definition of a signal's structure. The functions do nothing: their contracts are
//! the laws.
ghost use Rattle.eqc_strash.specs.Laws.{StructuresFollowDrivers, EqualStructuresHaveEqualValues};

/// The structure of a signal is what its driver makes of the structures of the signals: a
/// connection has that of its other end, and so has a cover that only passes its one column on.
pub fn structures_follow_drivers()
    ensures { StructuresFollowDrivers }
{}

/// Signals of equal structure have equal values, also of two netlists, under every assignment of
/// values to variables.
pub fn equal_structures_have_equal_values()
    ensures { EqualStructuresHaveEqualValues }
{}
