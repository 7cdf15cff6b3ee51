//! Cases of sources and sinks.
use std::io::{self, Cursor};
use std::test::*;
use std::time::{self, Duration};
use stream_port::{
    Asked, Clock, Fate, FateRule, Fates, FixedClock, MemoryFates, MemorySink, MemorySource,
    ReadSource, SecondsClock, Sink, SinkFault, Source, SourceFault, WriteSink,
};

#[test]
fn memory_source(rt: HostRuntime) -> Result<(), Fail> {
    let alloc = rt.alloc();
    let bytes = b"swallow".as_slice().to_vec(alloc)?;
    let mut source = MemorySource::new(bytes, 3, vec![in alloc; 2u64]?);
    let mut into = [0u8; 5];
    for (count, text) in [
        (Ok(3), b"swa".as_slice()),
        (Err(SourceFault), b"".as_slice()),
        (Ok(3), b"llo".as_slice()),
        (Ok(1), b"w".as_slice()),
        (Ok(0), b"".as_slice()),
    ] {
        assert_eq!(rt; source.read(&mut into), count);
        assert!(rt; text.len() <= 5 && &into[..text.len()] == text);
    }
    Ok(())
}

#[test]
fn memory_sink(rt: HostRuntime) -> Result<(), Fail> {
    let alloc = rt.alloc();
    let mut sink = MemorySink::new(alloc, 3, vec![in alloc; 2u64]?);
    for (bytes, count) in [
        (b"swallow".as_slice(), Ok(3)),
        (b"llow".as_slice(), Err(SinkFault)),
        (b"".as_slice(), Ok(0)),
        (b"w".as_slice(), Ok(1)),
    ] {
        assert_eq!(rt; sink.write(bytes), count);
    }
    assert_eq!(rt; sink.taken(), b"swaw".as_slice());
    assert_eq!(rt; sink.starved(), 0);
    Ok(())
}

// A reader and a writer that a signal interrupts at their first calls.
#[derive(Drop)]
struct Interrupted {
    times: u8,
}

impl Interrupted {
    fn call(&mut self) -> io::Result<()> {
        if self.times == 0 {
            return Ok(());
        }
        self.times -= 1;
        Err(io::ErrorKind::Interrupted.into())
    }
}

impl io::Read for Interrupted {
    fn read(&mut self, into: &mut [u8]) -> io::Result<usize> {
        self.call()?;
        let count = into.len().min(2);
        into[..count].fill(7);
        Ok(count)
    }
}

impl io::Write for Interrupted {
    fn write(&mut self, bytes: &[u8]) -> io::Result<usize> {
        self.call()?;
        Ok(bytes.len().min(2))
    }

    fn flush(&mut self) -> io::Result<()> {
        Ok(())
    }
}

#[test]
fn adapters(rt: HostRuntime) -> Result<(), Fail> {
    let alloc = rt.alloc();
    let mut source = ReadSource::new(b"ten".as_slice());
    let mut into = [0u8; 8];
    assert_eq!(rt; source.read(&mut into), Ok(3));
    assert_eq!(rt; source.read(&mut into), Ok(0));
    assert!(rt; &into[..3] == b"ten".as_slice());
    let mut sink = WriteSink::new(Cursor::new(Vec::new(alloc)));
    assert_eq!(rt; sink.write(b"ten"), Ok(3));
    assert_eq!(rt; sink.write(b""), Ok(0));
    let mut source = ReadSource::new(Interrupted { times: 3 });
    assert_eq!(rt; source.read(&mut into), Ok(2));
    let mut sink = WriteSink::new(Interrupted { times: 3 });
    assert_eq!(rt; sink.write(b"ten"), Ok(2));
    Ok(())
}

// The second message with tag 3 is repeated and held, whatever comes between; all others are plain.
#[test]
fn memory_fates(rt: HostRuntime) -> Result<(), Fail> {
    let alloc = rt.alloc();
    let held = Fate {
        copies: 2,
        overtake: 1,
        hold: 4,
    };
    let lost = Fate {
        copies: 0,
        overtake: 0,
        hold: 0,
    };
    let plain = Fate {
        copies: 1,
        overtake: 0,
        hold: 0,
    };
    let mut rules = Vec::new(alloc);
    rules.push(FateRule {
        tag: 3,
        nth: 2,
        fate: held,
    })?;
    rules.push(FateRule {
        tag: 5,
        nth: 1,
        fate: lost,
    })?;
    rules.push(FateRule {
        tag: 3,
        nth: 2,
        fate: lost,
    })?;
    let mut fates = MemoryFates::new(alloc, rules);
    for (number, tag, fate) in [
        (1, 3, plain),
        (2, 5, lost),
        (3, 3, held),
        (4, 3, plain),
        (5, 5, plain),
    ] {
        assert_eq!(rt; fates.fate(number, tag)?, fate);
    }
    assert_eq!(rt; fates.asked().len(), 5);
    assert_eq!(rt;
        fates.asked()[2],
        Asked {
            number: 3,
            tag: 3,
            fate: held
        }
    );
    Ok(())
}

#[test]
fn fixed_clock(rt: HostRuntime) -> Result<(), Fail> {
    let mut clock = FixedClock::new(7);
    assert_eq!(rt; clock.moment(), 7);
    assert_eq!(rt; clock.moment(), 7);
    assert_eq!(rt; clock.calls(), 2);
    Ok(())
}

// A clock that stands 90 seconds and a half behind the beginning of 1970, or can't be read.
#[derive(Drop)]
struct Wall {
    stands: bool,
}

impl time::Clock for Wall {
    fn monotonic(&self) -> io::Result<Duration> {
        self.since_1970()
    }

    fn since_1970(&self) -> io::Result<Duration> {
        if self.stands {
            Ok(Duration::from_millis(90_500))
        } else {
            Err(io::ErrorKind::Other.into())
        }
    }
}

#[test]
fn seconds_clock(rt: HostRuntime) -> Result<(), Fail> {
    assert_eq!(rt; SecondsClock::new(Wall { stands: true }).moment(), 90);
    assert_eq!(rt; SecondsClock::new(Wall { stands: false }).moment(), 0);
    // The system's own clock stands behind the year 2020.
    assert!(rt; SecondsClock::new(rt.clone()?).moment() > 1_577_836_800);
    Ok(())
}
