//! Reads the line of an act.
ghost use Rattle.std.specs.Prelude.{◌≡◌, ◌≤◌, ◌-◌, ◌^◌, IfSome, MatchOption};
ghost use Rattle.plan_form.specs.Plans.{IsActLine, InRange};
ghost use Rattle.plan_form.specs.Reading.{clock_at, terms_at};

use crate::digits::{number_alone, number_behind};

const MOST_TIMEOUT: u64 = 1_000_000;

const MOST_TRIES: u64 = 100;

const MOST_CLOCK: u64 = 1_099_511_627_775;

/// What an act line says: who carries the act out, how long a commit record may be unknown, how many
/// attempts there may be, and the least clock of them.
#[derive(Clone, Copy, Debug, PartialEq, Eq)]
pub struct Terms {
    pub broker: u8,
    pub home: u8,
    pub timeout: u32,
    pub tries: u8,
    pub clock: u64,
}

// The clock at the end of an act line, which may lack it.
fn clock_of(bytes: &[u8]) -> Option<u64>
    ensures { result ≡ clock_at bytes.now }
{
    if bytes.is_empty() {
        return Some(1);
    }
    number_alone(bytes, b" clock ", MOST_CLOCK)
}

fn read_terms(line: &[u8], repositories: u8, brokers: u8) -> Option<Terms>
    ensures { result ≡ terms_at repositories brokers line.now }
{
    let Some((broker, rest)) = number_behind(line, b"act broker ", brokers as u64) else {
        return None;
    };
    let Some((home, rest)) = number_behind(rest, b" home ", repositories as u64) else {
        return None;
    };
    let Some((timeout, rest)) = number_behind(rest, b" timeout ", MOST_TIMEOUT) else {
        return None;
    };
    let Some((tries, rest)) = number_behind(rest, b" tries ", MOST_TRIES) else {
        return None;
    };
    let Some(clock) = clock_of(rest) else {
        return None;
    };
    Some(Terms {
        broker: broker as u8,
        home: home as u8,
        timeout: timeout as u32,
        tries: tries as u8,
        clock,
    })
}

/// What an act line of a plan with so many repositories and brokers says.
pub fn terms_of(line: &[u8], repositories: u8, brokers: u8) -> Option<Terms>
    ensures { MatchOption result ((t : Terms) → IsActLine repositories brokers t line.now → ⊥)
        (λ t. IsActLine repositories brokers t line.now) }
{
    read_terms(line, repositories, brokers)
}
