//! The calls of a library: for each model the numbers of the models that its instances name.
ghost use Rattle.std.specs.Prelude.{◌≡◌, ◌+◌, ◌<◌, ◌≤◌, length, IfOk};
ghost use Rattle.eqc_hierarchy.specs.Hierarchy.{model, model_number, callees};

pub(crate) mod reach;
pub(crate) mod recursion;

use eqc_blif::{Instance, Library, Name};
use eqc_netlist::Graph;
use std::alloc::{AllocError, Global};
use std::marker::Model;

/// The numbers of the models that the instances in each model name. The number of models stands for
/// a model that isn't there, and has no instances.
#[derive(Drop)]
pub struct Calls<'a> {
    library: &'a Library,
    callees: Vec<Vec<usize>>,
}

impl<'a> Model for Calls<'a> {
    ghost use Rattle.std.specs.Prelude.{◌≡◌, List, map};
    ghost use Rattle.eqc_blif.specs.Netlist.{ModelOf};
    ghost use Rattle.eqc_hierarchy.specs.Reaching.{calls_of};

    ghost Value = { List ModelOf };

    ghost view = { λ a. a.library.now };

    ghost invariant = { λ a. map (λ c. c.items) a.callees.items ≡ calls_of a.library.now };
}

/// The number of the model with this name, or the number of models where there is none.
pub(crate) fn model_number(library: &Library, name: &Name) -> usize
    ensures { result ≡ model_number library.now name.now }
{
    library.find(name).unwrap_or(library.models())
}

/// The instances in model `m`, or none where there is no such model.
pub fn instances(library: &Library, m: usize) -> &[Instance]
    ensures { result.now ≡ (model library.now m).instances }
{
    if m < library.models() {
        library.instances(m)
    } else {
        &[]
    }
}

/// The numbers of the models that the instances in model `m` name.
fn callees_of(alloc: Global, library: &Library, m: usize) -> Result<Vec<usize>, AllocError>
    ensures { IfOk result (λ all. all.items ≡ callees library.now m) }
{
    let instances = instances(library, m);
    let mut all = Vec::with_capacity(alloc, instances.len())?;
    'instances: for instance in instances {
        all.push(model_number(library, &instance.model))?;
    }
    Ok(all)
}

impl<'a> Calls<'a> {
    /// The calls of a library. Fails where memory is refused.
    pub fn of(alloc: Global, library: &'a Library) -> Result<Calls<'a>, AllocError>
        ensures { IfOk result (λ calls. calls ≡ library.now) }
    {
        let mut callees = Vec::new(alloc);
        for m in 0..library.models() {
            callees.push(callees_of(alloc, library, m)?)?;
        }
        callees.push(Vec::new(alloc))?;
        Ok(Calls { library, callees })
    }

    /// The library.
    pub fn library(&self) -> &'a Library
        ensures { result.now ≡ self.now }
    {
        self.library
    }

    /// The number of models and one more, for a model that isn't there.
    pub fn nodes(&self) -> usize
        ensures { result ≡ length self.now + 1 }
    {
        self.callees.len()
    }

    /// The numbers of the models that the instances in model `m` name, which is at most the number
    /// of models.
    pub fn callees(&self, m: usize) -> &[usize]
        requires { m ≤ length self.now }
        ensures { result.now ≡ callees self.now m }
    {
        self.callees[m].as_slice()
    }
}

impl<'a> Graph for Calls<'a> {
    ghost use Rattle.std.specs.Prelude.{◌+◌, length};
    ghost use Rattle.eqc_hierarchy.specs.Hierarchy.{callees};

    ghost size = { λ library. length library + 1 };

    ghost deps = { λ library m. callees library m };

    fn dependency(&self, node: usize, k: usize) -> Option<usize> {
        self.callees(node).get(k).copied()
    }
}
