// A gate, and the market that it trades in.
use gate_calls::gate::Gate;

#[derive(Drop)]
pub struct Session<'a, V> {
    gate: Gate<'a>,
    venue: V,
}

pub mod answering;
