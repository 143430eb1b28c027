//! The conditions by which an instance is at fault: no such model, an unknown formal, a formal
//! twice, an input without a pair.
ghost use Rattle.std.specs.Prelude.{◌≡◌, ◌<◌, [], true, not, map, take, length, position, is_some, slice_index_or, IfOk, OnOk, IfSome};
ghost use Rattle.std.specs.List.{list_any, fold};
ghost use Rattle.std.specs.Str.{bytes_eq};
ghost use Rattle.eqc_netlist.specs.Names.{is_named, has_twice};
ghost use Rattle.eqc_hierarchy.specs.Codes.{formals};
ghost use Rattle.eqc_hierarchy.specs.Hierarchy.{model, model_number};
ghost use Rattle.eqc_netlist.specs.NameSets.{with_name};
ghost use Rattle.eqc_hierarchy.specs.ModelFaults.{ports, ports_of};

use crate::calls::model_number;
use crate::condition::Condition;
use eqc_blif::{Instance, Key, Library, Name};
use eqc_netlist::NameSet;
use std::alloc::{AllocError, Global};
use std::marker::Model;

/// Up to so many formals are compared one by one, which takes less time than a set of them.
const FEW: usize = 8;

/// An instance of a model that isn't in the library.
#[derive(Drop)]
pub(crate) struct NamesNoModel<'a> {
    library: &'a Library,
}

impl<'a> Model for NamesNoModel<'a> {
    ghost use Rattle.std.specs.Prelude.{List};
    ghost use Rattle.eqc_blif.specs.Netlist.{ModelOf};

    ghost Value = { List ModelOf };

    ghost view = { λ a. a.library.now };
}

impl<'a> NamesNoModel<'a> {
    pub(crate) fn new(library: &'a Library) -> NamesNoModel<'a>
        ensures { result ≡ library.now }
    {
        NamesNoModel { library }
    }
}

impl<'a> Condition for NamesNoModel<'a> {
    ghost use Rattle.eqc_hierarchy.specs.ModelFaults.{names_no_model};

    ghost test = { λ library i. names_no_model library i };

    fn holds(&self, _alloc: Global, instance: &Instance) -> Result<bool, AllocError> {
        Ok(model_number(self.library, &instance.model) == self.library.models())
    }
}

/// A formal that is neither input nor output of its model.
#[derive(Drop)]
pub(crate) struct NamesNoFormal<'a> {
    library: &'a Library,
    ports: Vec<NameSet<'a>>,
}

impl<'a> Model for NamesNoFormal<'a> {
    ghost use Rattle.std.specs.Prelude.{◌≡◌, List};
    ghost use Rattle.eqc_blif.specs.Netlist.{ModelOf};
    ghost use Rattle.eqc_hierarchy.specs.ModelFaults.{ports_of};

    ghost Value = { List ModelOf };

    ghost view = { λ a. a.library.now };

    ghost invariant = { λ a. a.ports.items ≡ ports_of a.library.now };
}

/// Puts the inputs and outputs of model `m` into an empty set. Fails where memory is refused.
fn put_ports<'a>(all: &mut NameSet<'a>, library: &'a Library, m: usize) -> Result<(), AllocError>
    requires there { m < length library.now }
    requires empty { all.old ≡ [] }
    ensures { OnOk result (all.new ≡ ports library.now m) }
{
    all.insert_all(library.inputs(m))?;
    all.insert_all(library.outputs(m))?;
    Ok(())
}

/// The inputs and outputs of model `m`, each once. Fails where memory is refused.
fn ports_of<'a>(alloc: Global, library: &'a Library, m: usize) -> Result<NameSet<'a>, AllocError>
    requires { m < length library.now }
    ensures { IfOk result (λ all. all ≡ ports library.now m) }
{
    let mut all = NameSet::new(alloc, library.key());
    put_ports(&mut all, library, m)?;
    Ok(all)
}

/// Puts the inputs and outputs of each model into an empty list, and behind them those of a model
/// that isn't there. Fails where memory is refused.
fn put_all_ports<'a>(
    alloc: Global,
    library: &'a Library,
    all: &mut Vec<NameSet<'a>>,
) -> Result<(), AllocError>
    requires { all.old.items ≡ [] }
    ensures { OnOk result (all.new.items ≡ ports_of library.now) }
{
    for m in 0..library.models() {
        all.push(ports_of(alloc, library, m)?)?;
    }
    all.push(NameSet::new(alloc, library.key()))?;
    Ok(())
}

/// The position of the first of these pairs whose formal is not among the names, if there is one.
fn first_other(names: &NameSet<'_>, pairs: &[(Name, Name)]) -> Option<usize>
    ensures { result ≡ position (λ pair. not (is_named names.now pair.0)) pairs.now }
{
    pairs.iter().position(|pair| !names.has(pair.0.as_bytes()))
}

/// Whether one of the formals of an instance is not among these names.
fn has_other(names: &NameSet<'_>, instance: &Instance) -> bool
    ensures { result ≡ list_any (λ formal. not (is_named names.now formal)) (formals instance.now) }
{
    'pairs: for pair in &instance.pairs {
        if !names.has(pair.0.as_bytes()) {
            return true;
        }
    }
    false
}

impl<'a> NamesNoFormal<'a> {
    /// The test over the models of a library. Fails where memory is refused.
    pub(crate) fn of(alloc: Global, library: &'a Library) -> Result<NamesNoFormal<'a>, AllocError>
        ensures { IfOk result (λ test. test ≡ library.now) }
    {
        let mut ports = Vec::new(alloc);
        put_all_ports(alloc, library, &mut ports)?;
        Ok(NamesNoFormal { library, ports })
    }

    /// The position of the first pair of an instance whose formal is neither input nor output of
    /// the instance's model, if there is one.
    pub(crate) fn first_unknown(&self, instance: &Instance) -> Option<usize>
        ensures { result ≡ position (λ pair. not (is_named (ports self.now (model_number self.now instance.now.model)) pair.0)) instance.now.pairs }
    {
        let callee = model_number(self.library, &instance.model);
        first_other(&self.ports[callee], &instance.pairs)
    }
}

impl<'a> Condition for NamesNoFormal<'a> {
    ghost use Rattle.eqc_hierarchy.specs.ModelFaults.{names_no_formal};

    ghost test = { λ library i. names_no_formal library i };

    fn holds(&self, _alloc: Global, instance: &Instance) -> Result<bool, AllocError> {
        let callee = model_number(self.library, &instance.model);
        Ok(has_other(&self.ports[callee], instance))
    }
}

/// A formal twice in an instance. Many formals are looked up by the key.
#[derive(Clone, Copy)]
pub(crate) struct NamesFormalTwice {
    pub(crate) key: Key,
}

impl Condition for NamesFormalTwice {
    ghost use Rattle.eqc_hierarchy.specs.ModelFaults.{names_formal_twice};

    ghost test = { λ _ i. names_formal_twice i };

    fn holds(&self, alloc: Global, instance: &Instance) -> Result<bool, AllocError> {
        has_formal_twice(alloc, self.key, instance)
    }
}

/// Whether a name is among the formals of these pairs.
fn is_formal(pairs: &[(Name, Name)], name: &[u8]) -> bool
    ensures { result ≡ list_any (λ pair. bytes_eq name.now pair.0) pairs.now }
{
    pairs.iter().any(|pair| name == pair.0.as_bytes())
}

/// Whether a formal stands twice in these pairs, each compared with those before it.
fn stands_twice(pairs: &[(Name, Name)]) -> bool
    ensures { result ≡ has_twice (map (λ pair. pair.0) pairs.now) }
{
    for k in 0..pairs.len() {
        let pair = &pairs[k];
        if is_formal(&pairs[..k], pair.0.as_bytes()) {
            return true;
        }
    }
    false
}

/// The position of the first of these pairs whose formal stands in an earlier one, if there is one.
/// The formals before it are put into an empty set. Fails where memory is refused.
fn first_known<'a>(
    names: &mut NameSet<'a>,
    pairs: &'a [(Name, Name)],
) -> Result<Option<usize>, AllocError>
    requires { names.old ≡ [] }
    ensures some { IfOk result (λ found. is_some found ≡ has_twice (map (λ pair. pair.0) pairs.now)) }
    ensures first { IfOk result (λ found. IfSome found (λ k. (k < length pairs.now) × (is_named (map (λ pair. pair.0) (take k pairs.now)) (slice_index_or pairs.now k ([], [])).0 ≡ true))) }
{
    for k in 0..pairs.len() {
        let pair = &pairs[k];
        if !names.insert(&pair.0)? {
            return Ok(Some(k));
        }
    }
    Ok(None)
}

/// The position of the first of these pairs whose formal stands in an earlier one, if there is one.
/// Fails where memory is refused.
pub(crate) fn first_repeated(
    alloc: Global,
    key: Key,
    pairs: &[(Name, Name)],
) -> Result<Option<usize>, AllocError>
    ensures some { IfOk result (λ found. is_some found ≡ has_twice (map (λ pair. pair.0) pairs.now)) }
    ensures first { IfOk result (λ found. IfSome found (λ k. (k < length pairs.now) × (is_named (map (λ pair. pair.0) (take k pairs.now)) (slice_index_or pairs.now k ([], [])).0 ≡ true))) }
{
    let mut names = NameSet::new(alloc, key);
    first_known(&mut names, pairs)
}

/// Whether a formal stands twice in an instance.
fn has_formal_twice(alloc: Global, key: Key, instance: &Instance) -> Result<bool, AllocError>
    ensures { IfOk result (λ twice. twice ≡ has_twice (formals instance.now)) }
{
    if instance.pairs.len() <= FEW {
        return Ok(stands_twice(&instance.pairs));
    }
    let repeated = first_repeated(alloc, key, &instance.pairs)?;
    Ok(repeated.is_some())
}

/// An input of the model without a pair in the instance.
#[derive(Drop)]
pub(crate) struct LeavesInputOut<'a> {
    library: &'a Library,
}

impl<'a> Model for LeavesInputOut<'a> {
    ghost use Rattle.std.specs.Prelude.{List};
    ghost use Rattle.eqc_blif.specs.Netlist.{ModelOf};

    ghost Value = { List ModelOf };

    ghost view = { λ a. a.library.now };
}

/// Puts the formals of an instance into an empty set. Fails where memory is refused.
fn put_formals<'a>(names: &mut NameSet<'a>, instance: &'a Instance) -> Result<(), AllocError>
    requires { names.old ≡ [] }
    ensures { OnOk result (names.new ≡ fold with_name [] (formals instance.now)) }
{
    'pairs: for pair in &instance.pairs {
        names.insert(&pair.0)?;
    }
    Ok(())
}

/// The formals of an instance, each once. Fails where memory is refused.
pub(crate) fn formals_of<'a>(
    alloc: Global,
    key: Key,
    instance: &'a Instance,
) -> Result<NameSet<'a>, AllocError>
    ensures { IfOk result (λ names. names ≡ fold with_name [] (formals instance.now)) }
{
    let mut names = NameSet::new(alloc, key);
    put_formals(&mut names, instance)?;
    Ok(names)
}

/// The inputs of model `m`, or none where there is no such model.
pub(crate) fn inputs(library: &Library, m: usize) -> &[Name]
    ensures { result.now ≡ (model library.now m).inputs }
{
    if m < library.models() {
        library.inputs(m)
    } else {
        &[]
    }
}

/// Whether one of these words is not among the names.
fn leaves_out(names: &NameSet<'_>, words: &[Name]) -> bool
    ensures { result ≡ list_any (λ word. not (is_named names.now word)) words.now }
{
    words.iter().any(|word| !names.has(word.as_bytes()))
}

/// Whether one of these words is not among the formals of these pairs.
fn has_no_pair(pairs: &[(Name, Name)], words: &[Name]) -> bool
    ensures { result ≡ list_any (λ word. not (list_any (λ pair. bytes_eq word pair.0) pairs.now)) words.now }
{
    words.iter().any(|word| !is_formal(pairs, word.as_bytes()))
}

impl<'a> LeavesInputOut<'a> {
    pub(crate) fn new(library: &'a Library) -> LeavesInputOut<'a>
        ensures { result ≡ library.now }
    {
        LeavesInputOut { library }
    }
}

impl<'a> Condition for LeavesInputOut<'a> {
    ghost use Rattle.eqc_hierarchy.specs.ModelFaults.{leaves_input_out};

    ghost test = { λ library i. leaves_input_out library i };

    fn holds(&self, alloc: Global, instance: &Instance) -> Result<bool, AllocError> {
        let callee = model_number(self.library, &instance.model);
        let inputs = inputs(self.library, callee);
        if instance.pairs.len() <= FEW {
            return Ok(has_no_pair(&instance.pairs, inputs));
        }
        let names = formals_of(alloc, self.library.key(), instance)?;
        Ok(leaves_out(&names, inputs))
    }
}
