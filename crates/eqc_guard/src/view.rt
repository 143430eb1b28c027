//! What a worker knows.
ghost use Rattle.eqc_guard.specs.Known.{Known, known_coded, nobody};

use std::marker::Model;

/// What a worker knows. No value of it is made: it is for contracts alone.
pub struct View {
    nothing: (),
}

impl Model for View {
    ghost Value = { Known };

    ghost coded = { known_coded };

    ghost view = { λ v. nobody };
}
