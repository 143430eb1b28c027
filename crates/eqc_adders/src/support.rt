//! The inputs below a node, or the nodes of which it is the exclusive or, where these are few.

/// How many there is room for.
pub const ROOM: usize = 16;

/// Some inputs, or other nodes.
#[derive(Clone, Copy)]
pub struct Support {
    inputs: [u32; 16],
    /// How many there are, or one more than there is room for.
    count: usize,
}

impl Support {
    pub(crate) fn none() -> Support {
        Support {
            inputs: [0; 16],
            count: 0,
        }
    }

    pub fn many() -> Support {
        Support {
            inputs: [0; 16],
            count: ROOM + 1,
        }
    }

    /// How many there are, or more than `ROOM`.
    pub fn count(&self) -> usize {
        self.count
    }

    /// Whether a node is one of them.
    fn has(&self, node: u32) -> bool {
        for at in 0..ROOM {
            if at < self.count && self.inputs[at] == node {
                return true;
            }
        }
        false
    }

    /// The one at a place.
    pub fn at(&self, place: usize) -> Option<u32> {
        if place < ROOM && place < self.count {
            Some(self.inputs[place])
        } else {
            None
        }
    }

    /// With one more.
    fn with(self, input: u32) -> Support {
        if self.has(input) {
            return self;
        }
        let mut more = self;
        if more.count < ROOM {
            more.inputs[more.count] = input;
        }
        more.count = more.count.saturating_add(1).min(ROOM + 1);
        more
    }
}

/// One alone.
pub fn of_one(node: u32) -> Support {
    Support::none().with(node)
}

/// Those of two.
pub(crate) fn joined(first: Support, second: Support) -> Support {
    if first.count > ROOM || second.count > ROOM {
        return Support::many();
    }
    let mut all = first;
    for at in 0..ROOM {
        if at < second.count {
            all = all.with(second.inputs[at]);
        }
    }
    all
}

/// Those of one of two that the other one hasn't.
pub fn differing(first: Support, second: Support) -> Support {
    if first.count > ROOM || second.count > ROOM {
        return Support::many();
    }
    let mut left = Support::none();
    for at in 0..ROOM {
        if at < first.count && !second.has(first.inputs[at]) {
            left = left.with(first.inputs[at]);
        }
        if at < second.count && !first.has(second.inputs[at]) {
            left = left.with(second.inputs[at]);
        }
    }
    left
}
