//! What a person is told of repositories that the finals of a report say nothing of, or too little.

use std::alloc::Global;
use std::fs;
use swallow_top::{Told, takes_part, was_not_opened};

/// The greatest number of a repository.
const MOST: u8 = 16;

// Whether the folder has the first file of the repository.
fn is_there(rt: &HostRuntime, alloc: Global, folder: &str, number: u8) -> bool {
    match format!(in alloc; "{}/repository-{}-0", folder, number) {
        Ok(path) => fs::symlink_metadata(rt, path.as_str()).is_ok(),
        Err(_) => false,
    }
}

// Says of each repository of the run that couldn't be opened what the finals lack.
fn tell_unopened(rt: &HostRuntime, told: &Told) {
    for number in 1..=MOST {
        if was_not_opened(told.trace(), number) {
            let _said = eprintln!(rt;
                "swallow: repository {} couldn't be opened, so no act was run, and the finals lack what attempts with this home wrote",
                number
            );
        }
    }
}

// Says of each repository that the folder has and the plan hasn't what the finals lack.
fn tell_others(rt: &HostRuntime, alloc: Global, folder: &str, told: &Told) {
    for number in 1..=MOST {
        if !takes_part(told.trace(), number) && is_there(rt, alloc, folder, number) {
            let _said = eprintln!(rt;
                "swallow: repository {} of the folder isn't in this plan, so the finals lack its objects, and may lack what attempts with this home wrote",
                number
            );
        }
    }
}

/// Says after a run which repositories its finals say nothing of, or too little. Nothing is said where no run
/// began: then not even repository 1 takes part.
pub fn tell_parts(rt: &HostRuntime, alloc: Global, folder: &str, told: &Told) {
    if takes_part(told.trace(), 1) {
        tell_unopened(rt, told);
        tell_others(rt, alloc, folder, told);
    }
}
