//! What a recording replays to: a law of the commands `serve` and `replay`.
#![tactic(auto)]

mod laws;

pub use laws::recordings_replay;
