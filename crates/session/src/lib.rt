// The session: a line comes in, and its answer goes out.
#![tactic(auto)]

pub mod desk;
pub mod fault;
pub mod program;
pub mod session;
pub mod venue;
