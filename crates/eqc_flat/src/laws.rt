//! Laws of the definitions of hierarchies and of values. The functions do nothing: their contracts
//! are the laws.
ghost use Rattle.eqc_flat.specs.HierarchyLaws.{SignalsStandOnce, SignalsAreNamesOfInstances, RecursiveWhereReached, CyclicWhereReached};
ghost use Rattle.eqc_flat.specs.ValueLaws.{ValuesStay, ValuesAreThereForAll, AcceptedHaveValues, ValuesDependOnInputsAlone, CoversDependOnColumnsAlone};

/// The value of a signal at a depth is its value at every greater depth.
pub fn values_stay()
    ensures { ValuesStay }
{}

/// Whether a signal has a value at a depth does not depend on the values of the inputs.
pub fn values_are_there_for_all()
    ensures { ValuesAreThereForAll }
{}

/// Each signal of an accepted netlist has a value under every assignment.
pub fn accepted_have_values()
    ensures { AcceptedHaveValues }
{}

/// The value of a signal at a depth depends on the values of the main model's inputs alone.
pub fn values_depend_on_inputs_alone()
    ensures { ValuesDependOnInputsAlone }
{}

/// The value of a signal that a cover drives depends on the values of the cover's columns alone.
pub fn covers_depend_on_columns_alone()
    ensures { CoversDependOnColumnsAlone }
{}

/// No flat signal stands twice in the list of signals.
pub fn signals_stand_once()
    ensures { SignalsStandOnce }
{}

/// Without recursion a signal stands in the list of signals exactly when its path is an instance in
/// whose model its name occurs.
pub fn signals_are_names_of_instances()
    ensures { SignalsAreNamesOfInstances }
{}

/// The condition of code 22 holds exactly when the main model is or reaches a model that reaches
/// itself.
pub fn recursive_where_reached()
    ensures { RecursiveWhereReached }
{}

/// Where no other code applies, code 28 does exactly when some flat signal depends on itself, by
/// one signal or a chain of them.
pub fn cyclic_where_reached()
    ensures { CyclicWhereReached }
{}
