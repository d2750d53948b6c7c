// The transpose of a checked matrix by counting: columns become rows, in time linear in its rows, columns and entries.
#![tactic(auto)]

pub mod inner;
