//! One item, one event, and all of them.

pub mod inner;
pub mod taker;
pub mod translator;
