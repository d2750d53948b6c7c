// The pairs and sources of one row of a numeric plan: its columns inside the region, and for each of them the entries of the matrix's row with that
// column, in stored order. No part of the API: a numeric plan writes its rows by it.
#![tactic(auto)]

pub mod inner;

// Where a row's pairs and its sources end.
#[derive(Clone, Copy)]
pub struct RowEnd {
    pub pair: usize,
    pub source: usize,
}
