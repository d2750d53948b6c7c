// The text of a job and of its answer: the six lines of a job and what they ask, and the lines that answer it.
#![tactic(auto)]

pub mod inner;

// The most bytes that a job's text has.
pub const TEXT_LIMIT: usize = 16384;

// A job's two numbers, and how long its four lists are: numbers and no slices, since a list may be longer than the one that it is read into.
#[derive(Clone, Copy)]
pub struct JobRead {
    pub size: u64,
    pub blocks: usize,
    pub pointers: usize,
    pub columns: usize,
    pub seeds: usize,
    pub hops: u64,
}
