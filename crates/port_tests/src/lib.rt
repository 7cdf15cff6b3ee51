//! Tests of what a program meets and no text can give: readers and writers that are interrupted, clocks, files,
//! and threads that meet at a shelf.
#![tactic(auto)]

#[cfg(test)]
mod meetings;
#[cfg(test)]
mod shelves;
#[cfg(test)]
mod streams;
