//! Choices of some of a column's literals, one after the other. Nothing is believed of it.

use crate::column::{Item, Likely};
use eqc_xag::Literal;

/// So many literals are chosen at most.
pub(crate) const MOST_CHOSEN: usize = 5;

/// Some literals of a column by their places, in ascending order.
#[derive(Clone, Copy)]
pub(crate) struct Chosen {
    places: [usize; 5],
    pub(crate) count: usize,
}

impl Chosen {
    /// The first so many.
    pub(crate) fn first(count: usize) -> Chosen {
        Chosen {
            places: [0, 1, 2, 3, 4],
            count,
        }
    }

    /// What there is at one of its places.
    fn item(&self, settled: &[Item], k: usize) -> Option<Item> {
        if k >= self.count || k >= MOST_CHOSEN {
            return None;
        }
        settled.get(self.places[k]).copied()
    }

    /// The literal at one of its places, or the one that is false where there are fewer.
    pub(crate) fn literal(&self, settled: &[Item], k: usize) -> Literal {
        match self.item(settled, k) {
            None => 0,
            Some(item) => item.literal,
        }
    }

    /// Its literals, and behind them the one that is false.
    pub(crate) fn literals(&self, settled: &[Item]) -> [Literal; 5] {
        let mut literals = [0; 5];
        for k in 0..MOST_CHOSEN {
            literals[k] = self.literal(settled, k);
        }
        literals
    }

    /// Whether these are places of a column of so many.
    pub(crate) fn is_within(&self, len: usize) -> bool {
        let last = self.count.saturating_sub(1);
        last < MOST_CHOSEN && self.places[last] < len
    }

    /// The next choice of as many: the last place that can move on does, and those behind it follow
    /// it closely.
    pub(crate) fn advance(&mut self, len: usize) {
        let mut moved = 0;
        for k in 0..MOST_CHOSEN {
            let room = self.count.saturating_sub(k);
            if k < self.count && self.places[k].saturating_add(room) < len {
                moved = k;
            }
        }
        let from = self
            .places
            .get(moved)
            .copied()
            .unwrap_or(0)
            .saturating_add(1);
        for k in moved..MOST_CHOSEN {
            if k < self.count {
                self.places[k] = from.saturating_add(k - moved);
            }
        }
    }

    /// With a later place.
    pub(crate) fn with(&self, place: usize) -> Chosen {
        let mut more = *self;
        if more.count < MOST_CHOSEN {
            more.places[more.count] = place;
            more.count += 1;
        }
        more
    }

    /// All but two.
    pub(crate) fn without(&self, y: usize, z: usize) -> Chosen {
        let mut part = Chosen::first(0);
        for k in 0..MOST_CHOSEN {
            if k < self.count && k != y && k != z && part.count < MOST_CHOSEN {
                part.places[part.count] = self.places[k];
                part.count += 1;
            }
        }
        part
    }

    /// Two or three of them.
    pub(crate) fn likely(&self, settled: &[Item]) -> Option<Likely> {
        let z = match self.item(settled, 2) {
            None => None,
            Some(item) => Some(item.number),
        };
        Some(Likely {
            x: self.item(settled, 0)?.number,
            y: self.item(settled, 1)?.number,
            z,
            score: 0,
        })
    }
}
