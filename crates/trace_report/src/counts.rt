//! The ticks, crashes and copies of a trace.
ghost use Rattle.std.specs.Prelude.{◌≡◌};
ghost use Rattle.world_core.specs.Counts as spec;
ghost use Rattle.trace_report.specs.Reports.{wire_shown};

use message_form::Message;
use report_writer::Wire;
use world_core::{Entry, Sent, Trace};

// How many Ticks there are.
fn tick_count(entries: &[Entry]) -> usize
    ensures { result ≡ spec.tick_count entries.now }
{
    let mut count = 0;
    for entry in entries {
        if matches!(entry, Entry::Tick { .. }) {
            count += 1;
        }
    }
    count
}

// How many crashes there are.
fn crash_count(entries: &[Entry]) -> usize
    ensures { result ≡ spec.crash_count entries.now }
{
    let mut count = 0;
    for entry in entries {
        if matches!(entry, Entry::Crash { .. }) {
            count += 1;
        }
    }
    count
}

// How many Asks were sent.
fn ask_count(sent: &[Sent]) -> usize
    ensures { result ≡ spec.ask_count sent.now }
{
    let mut count = 0;
    for one in sent {
        if matches!(&one.message, Message::Ask { .. }) {
            count += 1;
        }
    }
    count
}

/// What a run's wire carried, and how often its nodes heard and crashed.
pub fn wire_of(trace: &Trace) -> Wire
    ensures { result ≡ wire_shown trace.now }
{
    let sent = trace.sent.as_slice();
    let entries = trace.entries.as_slice();
    Wire {
        messages: sent.len() as u64,
        asks: ask_count(sent) as u64,
        ticks: tick_count(entries) as u64,
        crashes: crash_count(entries) as u64,
    }
}
