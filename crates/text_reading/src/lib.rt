// Numbers, lists of numbers and lines of a text: whether the bytes are one, and which. The work is in `inner`; nothing is assumed of the bytes.
#![tactic(auto)]

pub mod inner;
