//! Tests of the text of a report.
#![tactic(auto)]

#[cfg(test)]
mod reports;
