// A call's answer as the programs that replay recorded answers write it. No part of the API.
#![tactic(auto)]

pub mod inner;
