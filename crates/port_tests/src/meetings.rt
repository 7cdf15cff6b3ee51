//! Cases of media that wait for one another.
ghost use Rattle.std.specs.Prelude.{◌≡◌, false};

use medium_port::{Medium, MediumFault, MeetShelf, Shelf};
use pseudo_time::NodeKind;
use std::test::*;
use std::thread::{Threads, join};

// Whether the first write of a medium is done.
fn starts<M: Medium>(medium: M) -> bool
    requires { M.is_failed medium ≡ false }
{
    let mut medium = medium;
    let _some = medium.pages();
    medium.write(0, 0, &[1]).is_ok()
}

fn start_alone(shelf: &mut MeetShelf, kind: NodeKind) -> Result<bool, MediumFault> {
    let medium = shelf.take(kind, 1, 0)?;
    Ok(starts(medium))
}

// Two repositories' media are written by two threads.
fn start_both<T: Threads>(rt: &T, shelf: &mut MeetShelf) -> Result<(bool, bool), MediumFault> {
    let one = shelf.take(NodeKind::Repository, 1, 0)?;
    let two = shelf.take(NodeKind::Repository, 2, 0)?;
    Ok(join(rt, || starts(one), || starts(two)))
}

#[test]
fn meeting(rt: HostRuntime) -> Result<(), Fail> {
    let alloc = rt.alloc();
    let mut shelf = MeetShelf::new(alloc, 2, 1_000_000_000)?;
    assert_eq!(rt; start_both(&rt, &mut shelf), Ok((true, true)));
    let mut shelf = MeetShelf::new(alloc, 2, 1000)?;
    assert_eq!(rt; start_alone(&mut shelf, NodeKind::Repository), Ok(false));
    assert_eq!(rt;
        start_alone(&mut shelf, NodeKind::Repository),
        Err(MediumFault)
    );
    assert_eq!(rt; start_alone(&mut shelf, NodeKind::Broker), Ok(true));
    Ok(())
}
