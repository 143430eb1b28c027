//! What tells a class from all others: a variable, a constant, or rows over the classes of columns.
ghost use Rattle.std.specs.Prelude.{◌≡◌};

use crate::columns::Columns;
use std::hash::{Hash, Hasher};

/// What tells a class.
#[derive(Drop)]
pub(crate) enum Shape {
    /// The inputs of this variable.
    Variable(u16),
    Constant(bool),
    /// The covers with the rows of this number over columns of these classes.
    Gate { rows: u32, columns: Columns },
}

impl Shape {
    /// How many columns it has.
    pub(crate) fn width(&self) -> usize {
        match self {
            Shape::Gate { columns, .. } => columns.len(),
            _ => 0,
        }
    }
}

impl PartialEq for Shape {
    ghost use Rattle.std.specs.Cmp.{partial_equiv_from_equiv};
    ghost use Rattle.eqc_strash.specs.Shapes.{same_shape};
    ghost use Rattle.eqc_strash.specs.ShapeEquality.{same_shape_equiv};

    ghost eq = { same_shape };

    ghost laws = { partial_equiv_from_equiv same_shape_equiv };

    fn eq(&self, other: &Shape) -> bool {
        match (self, other) {
            (Shape::Variable(v), Shape::Variable(w)) => *v == *w,
            (Shape::Constant(b), Shape::Constant(c)) => *b == *c,
            (
                Shape::Gate { rows, columns },
                Shape::Gate {
                    rows: others,
                    columns: classes,
                },
            ) => *rows == *others && *columns == *classes,
            _ => false,
        }
    }
}

impl Eq for Shape {
    ghost use Rattle.eqc_strash.specs.ShapeEquality.{same_shape_equiv};

    ghost laws = { same_shape_equiv };
}

impl Hash for Shape {
    ghost use Rattle.eqc_strash.specs.Shapes.{shape_input};
    ghost use Rattle.eqc_strash.specs.ShapeEquality.{shapes_hash_alike};

    ghost hash_input = { shape_input };

    ghost respects_eq = { shapes_hash_alike };

    fn hash<H: Hasher>(&self, state: &mut H) {
        match self {
            Shape::Variable(v) => {
                state.write_u8(0);
                v.hash(state);
            }
            Shape::Constant(b) => {
                state.write_u8(1);
                b.hash(state);
            }
            Shape::Gate { rows, columns } => {
                rows.hash(state);
                columns.hash(state);
            }
        }
    }
}
