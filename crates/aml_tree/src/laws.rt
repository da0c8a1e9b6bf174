// Laws of the grammar. Each function does nothing: its contract is the law.

ghost use Rattle.aml_tree.specs.Laws.{OneModule, OneBody, OneModuleFault, OneBodyFault, ModuleFaultsWithin, BodyFaultsWithin, ModuleIsSpelled, BodyIsSpelled, ModuleIsShaped, BodyIsShaped};

/// A table has at most one module.
pub fn modules_are_unique()
    ensures { OneModule }
{}

/// A span has at most one list of statements, where each name takes a fixed number of arguments.
pub fn bodies_are_unique()
    ensures { OneBody }
{}

/// A table has at most one fault as a module, and a span as a body.
pub fn faults_are_unique()
    ensures module_fault { OneModuleFault }
    ensures body_fault { OneBodyFault }
{}

/// Each fault stands within the bytes or at their end.
pub fn faults_stand_within()
    ensures module_faults { ModuleFaultsWithin }
    ensures body_faults { BodyFaultsWithin }
{}

/// What a tree names stands in the bytes.
pub fn names_are_there()
    ensures module_names { ModuleIsSpelled }
    ensures body_names { BodyIsSpelled }
{}

/// An operator of a tree has just the parts that its letters name.
pub fn trees_have_their_shape()
    ensures module_shape { ModuleIsShaped }
    ensures body_shape { BodyIsShaped }
{}
