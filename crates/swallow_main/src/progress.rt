//! What a long run says of itself on a terminal.
use std::alloc::AllocError;
use std::io::{IsTerminal, Stderr, Write};
use std::time::Clock;
use stream_port::{Fate, Fates};

/// The tag of the message that begins a try.
const BEGIN: u8 = 1;

// Says how far a run has come, at most once a second by the system's clock.
#[derive(Drop)]
struct Teller<R> {
    system: R,
    errors: Stderr,
    // Whether standard error is a terminal: else nothing is said.
    tells: bool,
    // The last second in which something was said, or the run began.
    said: u64,
    messages: u64,
    tries: u64,
}

impl<R: Clock> Teller<R> {
    fn new(system: R, errors: Stderr) -> Teller<R> {
        let said = match system.monotonic() {
            Ok(now) => now.as_secs(),
            Err(_) => 0,
        };
        Teller {
            tells: errors.is_terminal(),
            system,
            errors,
            said,
            messages: 0,
            tries: 0,
        }
    }

    // Counts a message with this tag.
    fn count(&mut self, tag: u8) {
        self.messages = self.messages.saturating_add(1);
        if tag == BEGIN {
            self.tries = self.tries.saturating_add(1);
        }
        if self.tells {
            self.tell();
        }
    }

    fn tell(&mut self) {
        let Ok(now) = self.system.monotonic() else {
            return;
        };
        if now.as_secs() > self.said {
            self.said = now.as_secs();
            let _said = writeln!(
                self.errors,
                "swallow: {} messages sent, {} of them to begin a try",
                self.messages, self.tries
            );
        }
    }
}

/// The fates of a real run. While a run goes on they tell on standard error, where that is a terminal, once
/// a second how far it is.
#[derive(Drop)]
pub struct ToldFates<R, G> {
    fates: G,
    teller: Teller<R>,
}

impl<R: Clock, G> ToldFates<R, G> {
    /// Fates of which none was asked for yet. `system` tells when a second has passed.
    pub fn new(fates: G, system: R, errors: Stderr) -> ToldFates<R, G> {
        ToldFates {
            fates,
            teller: Teller::new(system, errors),
        }
    }
}

impl<R: Clock, G: Fates> Fates for ToldFates<R, G> {
    ghost asked = { λ f. G.asked f.fates };

    fn fate(&mut self, number: u32, tag: u8) -> Result<Fate, AllocError> {
        let fate = self.fates.fate(number, tag)?;
        self.teller.count(tag);
        Ok(fate)
    }
}
