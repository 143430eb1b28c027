//! What a refusal of a hierarchy is about: the instance, models, signals or number at fault, by the
//! rule that it breaks.
pub(crate) mod circle;
pub(crate) mod circle_finding;
pub(crate) mod driver_findings;
pub(crate) mod hierarchical_name;

use crate::finding::circle::Circle;
use crate::finding::hierarchical_name::HierarchicalName;
use eqc_hierarchy::{FoundFormal, FoundInstance};

/// What is at fault in a hierarchy that is refused.
#[derive(Drop)]
pub enum Finding<'a> {
    /// 21: an instance of a model that isn't in the library.
    NoSuchModel(FoundInstance<'a>),
    /// 22: the main model and further models, each the model of an instance in the one before it,
    /// up to one that stands before too.
    Recursion(Vec<usize>),
    /// 23: a pair's formal that is neither input nor output of the instance's model.
    UnknownFormal(FoundFormal<'a>),
    /// 24: a formal that stands in two pairs of the instance.
    FormalTwice(FoundFormal<'a>),
    /// 25: an input of the instance's model for which the instance has no pair.
    MissingInput(FoundFormal<'a>),
    /// 26: a signal with two drivers, the first that was found.
    DrivenTwice(HierarchicalName<'a>),
    /// 27: a signal without a driver, the first in the order of instances and names.
    Undriven(HierarchicalName<'a>),
    /// 28: signals of which each depends on the next one and the last on the first.
    Circular(Circle<'a>),
    /// 29: the number of signals and instances together, or none where it is over 2^64 - 1, and how
    /// many there may be.
    TooLarge { size: Option<usize>, limit: usize },
    /// 30: the number of the main model's inputs, and how many there may be.
    ManyInputs { inputs: usize, limit: usize },
}
