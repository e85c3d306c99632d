//! A law on the tables of operations of the crates below: a function without a body, whose contract
//! is a fact about the definitions in `specs`. Nobody calls it at run time; docs/PROMISES.md lists
//! it.

ghost use Rattle.account_machine.specs.OperationLaws.{ShownAreServed};

/// Law: an operation is served just where operations-supported names it.
#[tactic(auto, using(crate::proofs::OperationTables::shown_are_served))]
pub fn shown_are_served()
    ensures { ShownAreServed }
{}
