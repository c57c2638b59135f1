// Growing lists over memory that a caller lends.
#![tactic(auto)]

pub mod list;
