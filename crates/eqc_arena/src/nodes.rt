//! References of nodes, and a node's children.
ghost use Rattle.std.specs.Prelude.{◌≡◌, ◌≢◌, ℕ, ◌-◌, ◌+◌, ◌^◌, ◌<◌, ◌≤◌, ◌⊎◌, [], ◌∷◌, length, Some, IfOk, IfErr, OnOk, OnErr};
ghost use Rattle.eqc_tree.specs.Tree.{Node};
ghost use Rattle.eqc_core.specs.View.{Read};
ghost use Rattle.eqc_core.specs.Words.{times, slots_of, children};
ghost use Rattle.eqc_core.specs.Moves.{IsReady};
ghost use Rattle.eqc_guard.specs.Known.{IsHeld, tree_of};
ghost use Rattle.eqc_arena.specs.Changing.{Exchanges};
ghost use Rattle.eqc_arena.specs.Nodes.{MayCount, KeepsTrees};

use eqc_guard::reference::Ref;
use eqc_guard::worker::Worker;
use eqc_tree::{Stop, unpack_node};

// One more reference of a name that is known to stay, or of a constant.
fn count(worker: &mut Worker, x: u32) -> Result<Ref, Stop>
    requires ready { IsReady worker.old.known.core }
    requires may { MayCount worker.old.known.core x }
    ensures name { IfOk result (λ r. r.number ≡ x) }
    ensures counted { OnOk result (Exchanges [] (slots_of (x ∷ [])) worker.old worker.new) }
    ensures trees { OnOk result (KeepsTrees worker.old.known worker.new.known) }
    ensures read { OnOk result (worker.new.known.core.read ≡ worker.old.known.core.read) }
    ensures room { length worker.old.known.core.held ≤ 2 ^ 39 → OnOk result (length worker.new.known.core.held ≤ 2 ^ 39) }
    ensures still { OnErr result (worker.new ≡ worker.old) }
    ensures full { OnErr result (2 ^ 32 - 1 ≤ length worker.old.known.core.held) }
    ensures only { IfErr result (λ s. s ≡ Stop.References) }
{
    worker.recall_laws();
    if x < 2 {
        return Ok(worker.constant(x == 1));
    }
    worker.up(x)
}

/// One more reference of `f`, which is a constant or a node that is held.
///
/// No scan is under way. The error is `References` alone, at 2^32 - 1 names held: then nothing has
/// changed.
pub fn copy(worker: &mut Worker, f: &Ref) -> Result<Ref, Stop>
    requires ready { IsReady worker.old.known.core }
    requires held { IsHeld worker.old.known.core f.now.number }
    ensures name { IfOk result (λ r. r.number ≡ f.now.number) }
    ensures copied { OnOk result (Exchanges [] (slots_of (f.now.number ∷ [])) worker.old worker.new) }
    ensures room { length worker.old.known.core.held ≤ 2 ^ 39 → OnOk result (length worker.new.known.core.held ≤ 2 ^ 39) }
    ensures still { OnErr result (worker.new ≡ worker.old) }
    ensures full { OnErr result (2 ^ 32 - 1 ≤ length worker.old.known.core.held) }
    ensures only { IfErr result (λ s. s ≡ Stop.References) }
{
    count(worker, f.number())
}

/// Gives `f` back, which is a constant or a node that is held. The node stays at least as long as
/// another reference of it is held, and one of which none is left stays until a collection.
///
/// No scan is under way.
pub fn give_back(worker: &mut Worker, f: Ref)
    requires ready { IsReady worker.old.known.core }
    requires held { IsHeld worker.old.known.core f.number }
    ensures { Exchanges (slots_of (f.number ∷ [])) [] worker.old worker.new }
{
    worker.recall_laws();
    worker.down(f);
}

/// The variable of a node that is held, and references of its children, the one at 0 first.
///
/// `f` is no constant, and no scan is under way. The error is `References` alone, at 2^32 - 2 names
/// held: then the same names are held as before.
pub fn children(worker: &mut Worker, f: &Ref) -> Result<(u16, Ref, Ref), Stop>
    requires ready { IsReady worker.old.known.core }
    requires held { 0 < times f.now.number worker.old.known.core.held }
    ensures children { IfOk result (λ t. tree_of worker.old.known f.now.number ≡ Node t.0 (tree_of worker.new.known t.1.number) (tree_of worker.new.known t.2.number)) }
    ensures held { IfOk result (λ t. Exchanges [] (slots_of (t.1.number ∷ t.2.number ∷ [])) worker.old worker.new) }
    ensures still { OnErr result (Exchanges [] [] worker.old worker.new) }
    ensures full { OnErr result (2 ^ 32 - 2 ≤ length worker.old.known.core.held) }
    ensures only { IfErr result (λ s. s ≡ Stop.References) }
{
    let word = worker.read_node(f);
    let (var, low, high) = unpack_node(word);
    let low = count(worker, low)?;
    match count(worker, high) {
        Ok(high) => Ok((var, low, high)),
        Err(stop) => {
            worker.down(low);
            Err(stop)
        }
    }
}
