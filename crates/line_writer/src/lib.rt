// Lines that are written: a form's bytes, and their way into memory that a caller lends.
#![tactic(auto)]

pub mod line;
