//! A script at work alone, and what it did.
use crate::object_maps::ObjectMap;
use script_meaning::Names;
use value_form::{Ending, Items, Line};

/// A script at work: its names, how many more statements may begin, its transcript so far and the
/// objects.
#[derive(Drop)]
pub struct Work {
    pub names: Names,
    pub left: u32,
    pub lines: Vec<Line>,
    pub objects: ObjectMap,
}

/// What a script did alone.
#[derive(Drop)]
pub struct Performed {
    pub transcript: Items<Line>,
    /// The map with the script's writes, however it ended.
    pub after: ObjectMap,
    pub ending: Ending,
}
