//! What is served between links, by name: the gateway between a host and clients, and a modelled device that is lent to
//! a guest. The loop between the links is that of `bridge_run`.
#![tactic(auto)]

mod lending;
mod served;
mod serving;

pub use bridge_run::RunTerms;
pub use lending::serve_host;
pub use served::after_loss::AfterLoss;
pub use serving::{ServeTerms, serve};
