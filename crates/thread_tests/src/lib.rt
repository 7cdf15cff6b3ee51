//! Tests of what threads share: the lock, its board, and the wire between two nodes.
#![tactic(auto)]

#[cfg(test)]
mod boards;
#[cfg(test)]
mod locks;
#[cfg(test)]
mod nodes;
#[cfg(test)]
mod passes;
