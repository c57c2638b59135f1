// What the gate answers, and the bytes of each answer.
#![tactic(auto)]

pub mod answer;
