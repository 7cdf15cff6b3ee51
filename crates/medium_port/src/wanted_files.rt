//! The file that a call asks for.
use crate::shelves::MediumName;
use std::alloc::Global;

// The file that is asked for.
#[derive(Clone, Copy)]
pub struct Wanted<'a> {
    pub alloc: Global,
    pub folder: &'a str,
    pub lock_path: &'a str,
    pub name: MediumName,
    // Whether folders and files are made, and files are lengthened.
    pub makes: bool,
    // How many pages it is to have at least, if it can.
    pub least: u32,
}
