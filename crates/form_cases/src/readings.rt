//! Cases of what is read: forms in bytes, forms in text, and scripts that are performed.

use crate::lines::{Form, form_of};
use crate::{forms, performances, texts};
use case_words::{CaseFault, bytes, number, object};
use std::alloc::{AllocError, Global};
use std::mem;
use value_form::ObjectId;

/// What the lines so far have come to.
#[derive(Drop)]
struct Reading {
    alloc: Global,
    /// The form whose text stands on the lines.
    open: Option<Form>,
    text: Vec<u8>,
    /// How many repositories tokens are over.
    repositories: u8,
    /// What objects hold before a script.
    held: Vec<(ObjectId, i64)>,
}

impl Reading {
    fn new(alloc: Global) -> Reading {
        Reading {
            alloc,
            open: None,
            text: Vec::new(alloc),
            repositories: 16,
            held: Vec::new(alloc),
        }
    }

    // What is read from a text.
    fn read(&mut self, form: Form, text: &[u8]) -> Result<String, CaseFault> {
        let alloc = self.alloc;
        match form {
            Form::Tokens => texts::tokens(alloc, text, self.repositories),
            Form::Expression => texts::expression(alloc, text),
            Form::Row => texts::row(alloc, text),
            Form::Script => texts::script(alloc, text),
            Form::Plan => texts::plan(alloc, text),
            Form::Run => {
                let held = mem::replace(&mut self.held, Vec::new(alloc));
                performances::performed(alloc, text, held.as_slice())
            }
        }
    }

    // Adds bytes to the text, as often as said.
    fn add(&mut self, times: usize, words: &[&str]) -> Result<(), CaseFault> {
        let piece = bytes(self.alloc, words)?;
        for _ in 0..times {
            self.text.extend_from_slice(piece.as_slice())?;
        }
        Ok(())
    }

    // A line of a text, or its end.
    fn text_line(&mut self, open: Form, line: &str) -> Result<String, CaseFault> {
        let words: Vec<&str> = line.split(' ').collect(self.alloc)?;
        match words.as_slice() {
            ["end", word] if form_of(word) == Some(open) => {
                self.open = None;
                let text = mem::replace(&mut self.text, Vec::new(self.alloc));
                return self.read(open, text.as_slice());
            }
            ["\\bytes", words @ ..] => self.add(1, words)?,
            ["\\times", times, words @ ..] => self.add(number(times)?, words)?,
            _ => {
                self.text.extend_from_slice(line.as_bytes())?;
                self.text.push(b'\n')?;
            }
        }
        Ok(String::new(self.alloc))
    }

    // What is read from bytes. None where the line isn't about a form.
    fn form_in_bytes(&self, verb: &str, words: &[&str]) -> Result<Option<String>, CaseFault> {
        let alloc = self.alloc;
        let said = match verb {
            "pseudotime" => forms::pseudotime(alloc, bytes(alloc, words)?.as_slice())?,
            "value" => forms::value(alloc, bytes(alloc, words)?.as_slice())?,
            "effect" => forms::effect(alloc, bytes(alloc, words)?.as_slice())?,
            "message" => forms::message(alloc, bytes(alloc, words)?.as_slice())?,
            "cut-effect" => forms::cuts(alloc, false, bytes(alloc, words)?.as_slice())?,
            "cut-message" => forms::cuts(alloc, true, bytes(alloc, words)?.as_slice())?,
            _ => return Ok(None),
        };
        Ok(Some(said))
    }

    // What comes of a line's words.
    fn words(&mut self, verb: &str, words: &[&str]) -> Result<String, CaseFault> {
        let alloc = self.alloc;
        if let Some(said) = self.form_in_bytes(verb, words)? {
            return Ok(said);
        }
        match (verb, words) {
            ("hold", [name, held]) => self.held.push((object(name)?, number(held)?))?,
            ("repositories", [greatest]) => self.repositories = number(greatest)?,
            ("made", [seed, count]) => return texts::made(alloc, number(seed)?, number(count)?),
            _ => return Err(CaseFault::Line),
        }
        Ok(String::new(alloc))
    }

    // What comes of a line.
    fn carry_out(&mut self, line: &str) -> Result<String, CaseFault> {
        if let Some(form) = self.open {
            return self.text_line(form, line);
        }
        if line.is_empty() || line.starts_with('#') {
            return Ok(String::new(self.alloc));
        }
        let (verb, rest) = line.split_once(' ').unwrap_or((line, ""));
        if let Some(form) = form_of(verb) {
            if rest.is_empty() {
                self.open = Some(form);
                return Ok(String::new(self.alloc));
            }
            return self.read(form, rest.as_bytes());
        }
        let words: Vec<&str> = line.split(' ').collect(self.alloc)?;
        match words.as_slice() {
            [verb, rest @ ..] => self.words(verb, rest),
            [] => Err(CaseFault::Line),
        }
    }
}

// Adds what came of a line, or its fault, to what was said.
fn tell(
    alloc: Global,
    said: &mut String,
    told: Result<String, CaseFault>,
) -> Result<(), AllocError> {
    match told {
        Ok(more) => said.push_str(more.as_str()),
        Err(fault) => said.push_str(fault.text(alloc)?.as_str()),
    }
}

/// Carries out the lines of a text. Each is printed, and behind it what came of it.
pub fn carry_all(alloc: Global, text: &str, said: &mut String) -> Result<(), AllocError> {
    let mut reading = Reading::new(alloc);
    for line in text.lines() {
        said.push_str(line)?;
        said.push('\n')?;
        let told = reading.carry_out(line);
        tell(alloc, said, told)?;
    }
    Ok(())
}
