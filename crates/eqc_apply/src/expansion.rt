//! Shannon's expansion of two names.
ghost use Rattle.std.specs.Prelude.{◌≡◌, ℕ, ◌<◌, min, IfOk, IfErr};
ghost use Rattle.eqc_plain.specs.Store.{root};
ghost use Rattle.eqc_guard.specs.Known.{IsHeld, tree_of};
ghost use Rattle.eqc_apply.specs.Meaning.{meaning_in};
ghost use Rattle.eqc_apply.specs.Extending.{Extends};
ghost use Rattle.eqc_apply.specs.Expanding.{Expands};

use crate::held::Held;
use eqc_tree::Stop;

/// The top variable of two names, and the cofactors of both there: low and high.
#[derive(Clone, Copy)]
pub struct Expansion {
    pub variable: u16,
    pub f: (u32, u32),
    pub g: (u32, u32),
}

impl Held {
    /// The variable of the higher root of two names, or the number of variables for constants.
    pub(crate) fn higher_root(&mut self, f: u32, g: u32) -> u16
        requires f { IsHeld self.old.worker.known.core f }
        requires g { IsHeld self.old.worker.known.core g }
        ensures top { result ≡ min (root self.old.variables (tree_of self.old.worker.known f)) (root self.old.variables (tree_of self.old.worker.known g)) }
        ensures below { ¬ ((f < 2) × (g < 2)) → result < self.old.variables }
        ensures names { Extends self.old self.new }
    {
        let first = self.root(f);
        let second = self.root(g);
        first.min(second)
    }
}

/// The expansion of two names, one of which is no constant. All four cofactors are held then. The
/// error is `Stop::Memory` alone.
pub(crate) fn expand(names: &mut Held, f: u32, g: u32) -> Result<Expansion, Stop>
    requires f { IsHeld names.old.worker.known.core f }
    requires g { IsHeld names.old.worker.known.core g }
    requires inner { ¬ ((f < 2) × (g < 2)) }
    ensures ok { IfOk result (λ e. Expands (meaning_in names.old) (meaning_in names.new) f g e.variable e.f.0 e.f.1 e.g.0 e.g.1) }
    ensures names { Extends names.old names.new }
    ensures only { IfErr result (λ s. s ≡ Stop.Memory) }
{
    let variable = names.higher_root(f, g);
    let f = names.cofactors(variable, f)?;
    let g = names.cofactors(variable, g)?;
    Ok(Expansion { variable, f, g })
}
