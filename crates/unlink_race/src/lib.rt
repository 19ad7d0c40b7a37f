//! The requests of a client that are in flight: which there are, which of them is being unlinked, and what an
//! answer ends.
#![tactic(auto)]

mod by_number;
mod ending;
mod index;
mod iter;
mod keys;
mod live;
mod lives;
mod ranked;
mod search;
mod table;
mod unlink;
mod waiting;

pub use ending::{Ending, ending_of};
pub use iter::Iter;
pub use live::{Live, LiveKind, StreamEnd};
pub use lives::Lives;
pub use unlink::AskedBack;
pub use waiting::Waiting;
