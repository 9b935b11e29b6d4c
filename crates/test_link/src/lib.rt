//! Tests of links by their public calls: links in memory, over streams that fail, over sockets, and links of which neither
//! direction waits for the other.
#![tactic(auto)]

#[cfg(test)]
mod duplex;
#[cfg(test)]
mod edge;
#[cfg(test)]
mod link;
#[cfg(test)]
mod unix;
