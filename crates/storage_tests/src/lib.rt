//! Tests of stores: what a place gives, and long effects in pieces.
#![tactic(auto)]

#[cfg(test)]
mod pieces;
#[cfg(test)]
mod stores;
