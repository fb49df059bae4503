// The vectors of a session's two steps, and the state that their answers give.

#![tactic(auto)]

pub mod first;
pub mod second;
pub mod settling;
