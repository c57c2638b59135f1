// The lines that a program reads: which of them are forms, and what stands in a form.
#![tactic(auto)]

pub mod cursor;
pub mod fault;
pub mod scan;
