// Markets of option series: their levels, what is taken there, and what strategies cost in them.
#![tactic(auto)]

pub mod leg;
pub mod net;
pub mod quote;
pub mod takes;
pub mod terms;
pub mod trading;
