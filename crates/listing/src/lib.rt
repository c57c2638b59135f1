// The table of listed series.
#![tactic(auto)]

pub mod table;
