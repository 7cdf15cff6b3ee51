//! Cases are carried out line by line.

use crate::calls::{Called, call, in_lab, meet};
use crate::labs::{barred, lost_text, words_text};
use crate::series::{Series, fails_each, fates_each, stops_each};
use case_setups::{
    Left, Part, Said, Setup, Shown, acts_of, add, fate, set_call, show, show_medium, stream_named,
};
use case_words::{CaseFault, joined, number};
use std::alloc::{AllocError, Global};
use std::mem;
use std::sync::Wait;
use std::thread::Threads;

/// What the lines so far have come to.
#[derive(Drop)]
pub struct Case {
    alloc: Global,
    setup: Setup,
    plan: Vec<u8>,
    in_plan: bool,
    /// The media that the last call left.
    left: Vec<Left>,
    shown: Vec<Shown>,
}

// What a call said, whole or its acts alone.
fn shown_call(alloc: Global, said: &Said, is_whole: bool) -> Result<String, AllocError> {
    let text = said.text.as_str();
    show(
        alloc,
        said.status,
        if is_whole { text } else { acts_of(text) },
    )
}

// What the laboratory is to do by the words of a line.
fn options(alloc: Global, words: &str) -> Result<String, CaseFault> {
    let words = barred(alloc, words)?;
    words_text(alloc, words.as_slice())
}

impl Case {
    pub fn new(alloc: Global) -> Case {
        Case {
            alloc,
            setup: Setup::new(alloc),
            plan: Vec::new(alloc),
            in_plan: false,
            left: Vec::new(alloc),
            shown: Vec::new(alloc),
        }
    }

    // What was set up. Nothing is then.
    fn take_setup(&mut self) -> Setup {
        mem::replace(&mut self.setup, Setup::new(self.alloc))
    }

    // What stays the same in calls with these words.
    fn series<'a>(&'a self, words: &'a [&'a str]) -> Series<'a> {
        Series {
            alloc: self.alloc,
            plan: self.plan.as_slice(),
            words,
            shown: self.shown.as_slice(),
        }
    }

    fn show_of(&mut self, words: &[&str]) -> Result<(), CaseFault> {
        let [status, words @ ..] = words else {
            return Err(CaseFault::Line);
        };
        let (status, words) = (number(status)?, joined(self.alloc, words)?);
        self.shown.push(Shown { status, words })?;
        Ok(())
    }

    // The call over what was set up. Of its text only the acts are shown, or all.
    fn call<R: Threads + Wait + Sync>(
        &mut self,
        rt: &R,
        words: &[&str],
        is_whole: bool,
    ) -> Result<String, CaseFault> {
        let setup = self.take_setup();
        let left = mem::replace(&mut self.left, Vec::new(self.alloc));
        let left = if setup.again {
            left
        } else {
            Vec::new(self.alloc)
        };
        let called = call(rt, self.alloc, &setup, self.plan.as_slice(), words, left)?;
        let Called { said, media } = called;
        self.left = media;
        Ok(shown_call(self.alloc, &said, is_whole)?)
    }

    // `meet LOOKS WORD..`: the call with these words over media of which those of repositories meet at their first
    // writes, each of which looks so often for another.
    fn meet<R: Threads + Wait + Sync>(&self, rt: &R, words: &[&str]) -> Result<String, CaseFault> {
        let [looks, words @ ..] = words else {
            return Err(CaseFault::Line);
        };
        let said = meet(rt, self.alloc, number(looks)?, self.plan.as_slice(), words)?;
        Ok(shown_call(self.alloc, &said, true)?)
    }

    fn lab<R: Threads + Wait + Sync>(&mut self, rt: &R, words: &str) -> Result<String, CaseFault> {
        let setup = self.take_setup();
        let words = barred(self.alloc, words)?;
        let plan = self.plan.as_slice();
        let said = in_lab(rt, self.alloc, &setup, plan, words.as_slice())?;
        Ok(shown_call(self.alloc, &said, true)?)
    }

    // Shows this part of the pages of the media that the last call left, which are let go. Of volumes above 0 those
    // alone are shown that aren't blank.
    fn media(&mut self, part: Part) -> Result<String, CaseFault> {
        let left = mem::replace(&mut self.left, Vec::new(self.alloc));
        let mut shown = String::new(self.alloc);
        for one in left {
            shown.push_str(show_medium(self.alloc, one, part)?.as_str())?;
        }
        Ok(shown)
    }

    // `stops-each FROM LEAST WORD..`: the call with these words, with the moving stops at each call of a medium in
    // turn, from this one on. At least so many of them are met.
    fn stops_each<R: Threads + Wait + Sync>(
        &mut self,
        rt: &R,
        words: &[&str],
    ) -> Result<String, CaseFault> {
        let [from, least, words @ ..] = words else {
            return Err(CaseFault::Line);
        };
        let (from, least) = (number(from)?, number(least)?);
        let mut setup = self.take_setup();
        let table = stops_each(rt, &self.series(words), &mut setup, from)?;
        Ok(table.show(least)?)
    }

    // `fails-each source MOST WORD..` or `fails-each sink MOST WORD..`: the call with these words, where each call of
    // a stream fails in turn. The stream moves so many bytes a call.
    fn fails_each<R: Threads + Wait + Sync>(
        &mut self,
        rt: &R,
        words: &[&str],
    ) -> Result<String, CaseFault> {
        let [stream, most, words @ ..] = words else {
            return Err(CaseFault::Line);
        };
        let (stream, most) = (stream_named(stream)?, number(most)?);
        let mut setup = self.take_setup();
        let table = fails_each(rt, &self.series(words), &mut setup, stream, most)?;
        Ok(table.show(u64::MAX)?)
    }

    // `fates-each KIND N copies C overtake O hold H WORD..`: the call with these words, where in turn each of the
    // first N messages of a kind comes to this.
    fn fates_each<R: Threads + Wait + Sync>(
        &mut self,
        rt: &R,
        words: &[&str],
    ) -> Result<String, CaseFault> {
        let Some((front, words)) = words.split_at_checked(8) else {
            return Err(CaseFault::Line);
        };
        let rule = fate(front)?;
        let mut setup = self.take_setup();
        let table = fates_each(rt, &self.series(words), &mut setup, rule)?;
        Ok(table.show(u64::MAX)?)
    }

    // `lost LOSE COUNT`: which of so many messages a laboratory with this divisor loses.
    fn lost(&self, words: &[&str]) -> Result<String, CaseFault> {
        let [lose, count] = words else {
            return Err(CaseFault::Line);
        };
        Ok(lost_text(self.alloc, number(lose)?, number(count)?)?)
    }

    // The plan stands on the next lines.
    fn begin_plan(&mut self) {
        self.plan = Vec::new(self.alloc);
        self.in_plan = true;
    }

    // Sets up what a line says of the next call: `plan`, where the plan stands on the lines up to `end plan` and
    // stays until the next one; `shown STATUS WORD..`, where of a text with this status `stops-each` shows the lines
    // that begin with one of these words; else what `set_call` sets up.
    fn set_up(&mut self, verb: &str, words: &[&str]) -> Result<String, CaseFault> {
        match (verb, words) {
            ("plan", []) => self.begin_plan(),
            ("shown", words) => self.show_of(words)?,
            _ => set_call(self.alloc, &mut self.setup, verb, words)?,
        }
        Ok(String::new(self.alloc))
    }

    // Makes the calls that a line asks for, or shows what one has left: `call WORD..` is the call with these words,
    // `acts WORD..` the same without the line of the wire in the answer; `media` shows the pages of the media that
    // the call before this line left, `heads` of each page its first five bytes.
    fn by_words<R: Threads + Wait + Sync>(
        &mut self,
        rt: &R,
        verb: &str,
        words: &[&str],
    ) -> Result<String, CaseFault> {
        match (verb, words) {
            ("call", _) => self.call(rt, words, true),
            ("acts", _) => self.call(rt, words, false),
            ("stops-each", _) => self.stops_each(rt, words),
            ("fails-each", _) => self.fails_each(rt, words),
            ("fates-each", _) => self.fates_each(rt, words),
            ("meet", _) => self.meet(rt, words),
            ("media", []) => self.media(Part::Records),
            ("heads", []) => self.media(Part::Head),
            ("lost", _) => self.lost(words),
            _ => self.set_up(verb, words),
        }
    }

    // Carries out a line by its words. Of a remark and of an empty line nothing comes.
    fn by_line<R: Threads + Wait + Sync>(
        &mut self,
        rt: &R,
        line: &str,
    ) -> Result<String, CaseFault> {
        let words: Vec<&str> = line.split(' ').collect(self.alloc)?;
        match words.as_slice() {
            [] | ["", ..] | ["#", ..] => Ok(String::new(self.alloc)),
            [verb, words @ ..] => self.by_words(rt, verb, words),
        }
    }

    // Adds a line to the plan, or ends it.
    fn plan_line(&mut self, line: &str) -> Result<String, CaseFault> {
        if line == "end plan" {
            self.in_plan = false;
        } else {
            add(self.alloc, &mut self.plan, line)?;
        }
        Ok(String::new(self.alloc))
    }

    /// What comes of a line. Beside the lines that are read by their words, `lab A|B` is the laboratory with these
    /// words and `options A|B` is what they have it do.
    pub fn carry_out<R: Threads + Wait + Sync>(
        &mut self,
        rt: &R,
        line: &str,
    ) -> Result<String, CaseFault> {
        if self.in_plan {
            return self.plan_line(line);
        }
        match line.split_once(' ').unwrap_or((line, "")) {
            ("lab", words) => self.lab(rt, words),
            ("options", words) => options(self.alloc, words),
            _ => self.by_line(rt, line),
        }
    }
}
