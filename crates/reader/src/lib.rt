// Readers of number cells over a format word that is data: a port of lexical-util's cursor over bytes and digit separators. Each
// call takes the caller's buffer and a state by value, and returns the next state.
#![tactic(auto)]

pub mod answer;
pub mod bytes;
pub mod column;
pub mod iterator;
pub mod noskip;
pub mod open;
pub mod pairs;
pub mod passing;
pub mod rule;
pub mod search;
pub mod skip;
pub mod state;
