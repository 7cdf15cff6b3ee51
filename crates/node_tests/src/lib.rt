//! Tests of what is read off traces.
#![tactic(auto)]

#[cfg(test)]
mod traces;
