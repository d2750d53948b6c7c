// Union, intersection, and-not and xor of two sides of equal shape, row by row, a word at a time.
#![tactic(auto)]

pub mod inner;
