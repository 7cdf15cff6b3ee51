//! Tests of histories of objects: plain ones, and those kept in version storage.
#![tactic(auto)]

#[cfg(test)]
mod headers;
#[cfg(test)]
mod histories;
