//! The doors over TCP: what connects the program to a real client and a real host.
//!
//! A gateway that polls its sockets in turn would keep a processor busy. So a poll reads first, and where
//! nothing has come for a while it waits in the kernel, for any of the sockets, before it answers.
//!
//! The doors are generic in what they ask of the system, so that their contracts can say what it answered.
#![tactic(auto)]

mod ahead;
mod both;
mod connection;
mod limits;
mod network;
mod pace;
mod ready;
mod socket;
mod step;
mod tcp_doors;
mod telling;

pub use connection::Connection;
pub use limits::socket_limits;
pub use network::Network;
pub use tcp_doors::TcpDoors;
