// Whether one side holds exactly the pairs of another, turned round.
#![tactic(auto)]

pub mod inner;
