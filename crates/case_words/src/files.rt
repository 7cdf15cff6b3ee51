//! Files of cases.

use std::alloc::{AllocError, Global};
use std::fs;
use std::rt::Files;

/// Cases of one kind or of several.
pub trait Cases {
    /// Carries out the cases of a text, which are about this. Each line of it is said, and behind it what came
    /// of it.
    fn carry_out(
        alloc: Global,
        about: &str,
        text: &str,
        said: &mut String,
    ) -> Result<(), AllocError>;
}

// Carries out the cases of the file that a line names, `ABOUT FILE`.
fn carry_out_file<C: Cases, R: Files + AllocGlobal>(
    rt: &R,
    alloc: Global,
    line: &str,
    said: &mut String,
) -> Result<(), AllocError> {
    said.push_str(line)?;
    said.push('\n')?;
    let (about, name) = line.split_once(' ').unwrap_or((line, ""));
    match fs::read_to_string(rt, name) {
        Ok(text) => C::carry_out(alloc, about, text.as_str(), said),
        Err(_) => said.push_str("  no file\n"),
    }
}

/// What came of the cases of the files that these lines name, `ABOUT FILE` each.
pub fn carry_out_files<C: Cases, R: Files + AllocGlobal>(
    rt: &R,
    alloc: Global,
    lines: &str,
) -> Result<String, AllocError> {
    let mut said = String::new(alloc);
    for line in lines.lines() {
        carry_out_file::<C, R>(rt, alloc, line, &mut said)?;
    }
    Ok(said)
}
