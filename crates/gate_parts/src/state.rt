//! Ids, the streams that are up, and the ids of their starts and stops.

pub mod id;
pub mod stream_ids;
pub mod streams;
