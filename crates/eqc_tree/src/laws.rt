//! Two facts about decision trees, as functions without a body.

ghost use Rattle.eqc_tree.specs.Tree.{Bryant};
ghost use Rattle.eqc_tree.specs.CodedTree.{ReadsBack};

/// Two ordered reduced trees with equal functions are equal (Bryant 1986, section 3).
pub fn trees_are_unique()
    ensures { Bryant }
{}

/// A tree is what its spelling as a list of numbers is read as.
pub fn trees_are_read_back()
    ensures { ReadsBack }
{}
