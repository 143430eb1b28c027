//! Laws of the definitions of differences and verdicts. The functions do nothing: their contracts
//! are the laws.
ghost use Rattle.eqc_compare.specs.VerdictLaws.{DifferenceLaw, MatchingLaw, VacuousLaw, LeastLaw, NoneLaw, UniqueLaw, FirstLaw, EquivalentLaw, FirstAloneLaw, EachLaw};

/// An output differs under an assignment exactly where that is allowed and it has different values
/// in the two netlists.
pub fn difference_is_of_values()
    ensures { DifferenceLaw }
{}

/// Inputs are matched by name: each has the value of the declared input of its name.
pub fn inputs_are_matched_by_name()
    ensures { MatchingLaw }
{}

/// An assumption allows no assignment exactly where its output is 0 under each.
pub fn vacuous_where_none_is_allowed()
    ensures { VacuousLaw }
{}

/// The assignment of an output's difference is the least under which it differs, in lexicographic
/// order.
pub fn least_difference_is_least()
    ensures { LeastLaw }
{}

/// An output has no least assignment exactly where it differs under none.
pub fn least_difference_is_none_where_equal()
    ensures { NoneLaw }
{}

/// An output has one least assignment at most.
pub fn least_difference_is_unique()
    ensures { UniqueLaw }
{}

/// The output of a verdict is the first that differs, with its least assignment.
pub fn first_difference_is_first()
    ensures { FirstLaw }
{}

/// A verdict has no output exactly where none differs under any assignment.
pub fn first_difference_is_none_where_equal()
    ensures { EquivalentLaw }
{}

/// Of all differences the first alone is the first difference.
pub fn first_alone_is_first_difference()
    ensures { FirstAloneLaw }
{}

/// All differences are the outputs that differ, in their order, each with its least assignment.
pub fn differences_are_each()
    ensures { EachLaw }
{}
