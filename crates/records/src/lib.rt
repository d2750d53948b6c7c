// What the programs that replay recorded answers share: reading and writing of their records. No part of the API.
#![tactic(auto)]

pub mod inner;
