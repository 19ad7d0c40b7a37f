//! What is sent and told.

pub mod answer;
pub mod ask;
pub mod finish;
pub mod outputs;
pub mod refusal;
