//! Which words are looked for, and how far that goes.

use crate::adding::{MOST_FAILED, MOST_NODES, limits_in};
use eqc_adders::Limits;

/// So often it is looked for words, each time over those that were shown equal before.
const LOOKS: u32 = 3;

/// So often two words are tried, each time with other patterns and with the other one first.
const TURNS: u32 = 4;

/// In a short look a graph has at most so many nodes, and a word this part of all that it may
/// take.
const FEW_NODES: u32 = 40_000;

const PART: u32 = 8;

/// Which words are looked for.
#[derive(Clone, Copy, PartialEq, Eq, Debug)]
pub enum Kind {
    /// Words of outputs that are sums of products, added up briefly: those that are as they were
    /// made mostly take no more, and no sweep before.
    AsMade,
    /// Words inside, until the first one isn't shown equal at once, in a graph that isn't large: a
    /// run that has none takes little longer.
    Short,
    /// Words inside, until several aren't, each in several turns, in larger graphs too.
    Long,
    /// Words of outputs that are products which a mapping took apart, by way of products that are
    /// made anew, in larger graphs too.
    Anew,
    /// Words of outputs that are sums of products, added up briefly or as arrays that are made
    /// anew, in larger graphs too.
    Arrays,
    /// Words of outputs, for each value of the inputs that choose what a design does, until the
    /// first one isn't, in a graph that isn't large.
    Cases,
}

/// Which words are looked for, and how far that goes.
#[derive(Clone, Copy, PartialEq, Eq, Debug)]
pub struct Look {
    pub kind: Kind,
    /// What may be done is in proportion to the conflicts that a run may have.
    pub conflicts: u64,
}

impl Look {
    /// Whether words of outputs are meant, by their names.
    pub fn is_of_outputs(self) -> bool {
        match self.kind {
            Kind::Short | Kind::Long => false,
            Kind::AsMade | Kind::Anew | Kind::Arrays | Kind::Cases => true,
        }
    }

    /// How often it is looked for words, each time over those that were shown equal before.
    pub fn count(self) -> u32 {
        match self.kind {
            Kind::Short | Kind::Long => LOOKS,
            Kind::AsMade | Kind::Anew | Kind::Arrays | Kind::Cases => 1,
        }
    }

    /// In how many turns two words are tried.
    pub(crate) fn turns(self) -> u32 {
        match self.kind {
            Kind::Short | Kind::AsMade | Kind::Anew | Kind::Arrays | Kind::Cases => 1,
            Kind::Long => TURNS,
        }
    }

    /// So many words that aren't shown equal end it.
    pub(crate) fn most_failed(self) -> u32 {
        match self.kind {
            Kind::Short | Kind::AsMade | Kind::Cases => 1,
            Kind::Long | Kind::Anew | Kind::Arrays => MOST_FAILED,
        }
    }

    /// In a graph of more nodes it isn't made.
    pub fn most_nodes(self) -> u32 {
        match self.kind {
            Kind::Short | Kind::Cases => FEW_NODES,
            Kind::Long | Kind::AsMade | Kind::Anew | Kind::Arrays => MOST_NODES,
        }
    }

    /// The limits for words in a graph of so many nodes.
    pub(crate) fn limits(self, nodes: u32) -> Limits {
        let limits = limits_in(nodes, self.conflicts);
        match self.kind {
            Kind::Short => Limits {
                steps: limits.steps / PART,
                terms: limits.terms / PART as usize,
                conflicts: limits.conflicts / u64::from(PART),
                work: limits.work / u64::from(PART),
                ..limits
            },
            Kind::Long | Kind::AsMade | Kind::Anew | Kind::Arrays | Kind::Cases => limits,
        }
    }
}
