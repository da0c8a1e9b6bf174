// The laws of tables that grow. Each function does nothing: its contract is the law.

ghost use Rattle.aml_shapes.specs.Laws.{KeepOn, KindsStay};

/// What is known by the numbers of a table stays while the table grows.
pub fn kinds_stay()
    ensures { KindsStay }
{}

/// A table that grows twice keeps what its numbers stood for at first.
pub fn tables_keep_on()
    ensures { KeepOn }
{}
