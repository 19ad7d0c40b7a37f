//! What is sent and told.

pub mod answer;
pub mod hello;
pub mod note;
pub mod packet;
