//! Tests that cases can't be: of lines that no case prints, of values as octets, of a reference that is made, names and
//! hashes, of devices, of the network and threads, of a journal in a file, of a stream of messages, of trees, and of completions:
//! where allocations fail, below a superior, and in doubt.
//! They stand in a crate of their own, since a crate with tests is proved once more with them.
#![tactic(auto)]

#[cfg(test)]
mod completions;
#[cfg(test)]
mod devices;
#[cfg(test)]
mod files;
#[cfg(test)]
mod lines;
#[cfg(test)]
mod messages;
#[cfg(test)]
mod network;
#[cfg(test)]
mod references;
#[cfg(test)]
mod trees;
#[cfg(test)]
mod values;
