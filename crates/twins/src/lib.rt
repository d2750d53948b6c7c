// The search for a block whose kind, id and field repeat those of an earlier one: in one pass where the keys rise, by a table of the keys
// met where they do not.
#![tactic(auto)]

pub mod inner;
mod keys;
mod orders;
mod table;
