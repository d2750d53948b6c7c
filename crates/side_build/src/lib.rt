// Building one side of a topology from the entries of a checked matrix, in place: each row's words are kept in rising order while its
// entries come in any order. A row that falls is read from its end, so that it costs no more than one that rises.
#![tactic(auto)]

pub mod inner;
