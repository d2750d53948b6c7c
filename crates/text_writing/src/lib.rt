// Numbers, lists of numbers and lines as bytes of text: how they are written. The work is in `inner`, for callers that have room; text_reading
// reads the same text back.
#![tactic(auto)]

pub mod inner;
