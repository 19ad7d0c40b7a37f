//! Lists in lanes over one raw block of cells: each lane is a ring of the cells that have its values, and the free
//! cells, which have none, are one more. Each ring has an end, a cell that never has a value.
#![tactic(auto)]

mod arena;
mod cells;
mod rings;
mod table;

pub use arena::{Arena, Key, MOST};
