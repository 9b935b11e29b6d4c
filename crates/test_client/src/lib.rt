//! Tests of the libraries by their public calls: each call that no program makes, over the server in memory, and what a
//! session offers.
#![tactic(auto)]

#[cfg(test)]
mod buffered;
#[cfg(test)]
mod calls;
#[cfg(test)]
mod files;
#[cfg(test)]
mod links;
#[cfg(test)]
mod names;
#[cfg(test)]
mod offers;
#[cfg(test)]
mod polls;
#[cfg(test)]
mod server;
#[cfg(test)]
mod streams;
#[cfg(test)]
mod tour;
