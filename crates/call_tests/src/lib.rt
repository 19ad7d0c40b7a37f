//! Tests of what needs a call's own types: a public call that is made once with ample memory, tables that come from
//! outside, gadgets and the hosts that lend them, streams and sockets. A file of `tests` is one subject.
//!
//! What a contract says of all inputs has no test here, and what a command or a reader reaches is a row of text.
#![tactic(auto)]

#[cfg(test)]
mod tests;
