//! Runs of the gateway between USB/IP clients and a usbredir host, and of modelled hosts.
#![tactic(auto)]

mod program;

pub use program::run;
