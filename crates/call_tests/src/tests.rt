//! The tests, by subject.

mod descriptors;
mod gadgets;
mod host_rows;
mod hosts;
mod laid_out;
mod lanes;
mod numbers;
mod outside;
mod requests;
mod scripts;
mod setups;
mod sockets;
mod ups;
