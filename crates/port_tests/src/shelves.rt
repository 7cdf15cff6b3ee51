//! Cases of shelves over memory and over files.
ghost use Rattle.std.specs.Prelude.{◌≡◌, false};

use medium_port::{FileShelf, Medium, MediumFault, MemoryMedium, MemoryShelf, Shelf};
use pseudo_time::NodeKind;
use std::os::unix::fs::symlink;
use std::test::*;
use std::{fs, process};

// The pages of a medium of a shelf, and what it reads at the end of its last page, after these
// bytes were written there.
fn written<S: Shelf>(
    shelf: &mut S,
    number: u8,
    bytes: &[u8; 2],
) -> Result<(u32, [u8; 2]), MediumFault> {
    let mut medium = shelf.take(NodeKind::Repository, number, 0)?;
    let pages = medium.pages();
    medium.write(pages - 1, 4094, bytes)?;
    medium.sync()?;
    medium.reopen()?;
    read(medium)
}

fn read<M: Medium>(medium: M) -> Result<(u32, [u8; 2]), MediumFault>
    requires { M.is_failed medium ≡ false }
{
    let mut medium = medium;
    let mut page = [0u8; 4096];
    let pages = medium.pages();
    medium.read(pages - 1, &mut page)?;
    Ok((pages, [page[4094], page[4095]]))
}

fn taken<S: Shelf>(shelf: &mut S, number: u8) -> Result<(u32, [u8; 2]), MediumFault> {
    let medium = shelf.take(NodeKind::Repository, number, 0)?;
    read(medium)
}

// The folder lies in one that isn't there either. While a shelf lives that took a medium, no other takes one of its folder.
#[test]
fn files(rt: HostRuntime) -> Result<(), Fail> {
    let alloc = rt.alloc();
    let outer = format!(in alloc; "/tmp/swallow-media-{}", process::id(rt.process()))?;
    let folder = format!(in alloc; "{}/data", outer.as_str())?;
    let mut shelf = FileShelf::new(alloc, rt, rt.stderr(), folder.as_str())?;
    assert_eq!(rt; written(&mut shelf, 1, &[5, 6]), Ok((4096, [5, 6])));
    assert_eq!(rt; taken(&mut shelf, 1), Err(MediumFault));
    drop(shelf);
    let mut again = FileShelf::new(alloc, rt, rt.stderr(), folder.as_str())?;
    let mut other = FileShelf::new(alloc, rt, rt.stderr(), folder.as_str())?;
    let held = again.take(NodeKind::Repository, 1, 0);
    let locked = other.take(NodeKind::Repository, 1, 0).is_err();
    assert!(rt; held.is_ok() && locked);
    drop(held);
    assert_eq!(rt; taken(&mut other, 1), Err(MediumFault));
    drop(again);
    assert_eq!(rt; taken(&mut other, 1), Ok((4096, [5, 6])));
    for name in ["repository-1-0", "lock"] {
        let path = format!(in alloc; "{}/{name}", folder.as_str())?;
        let removed = fs::remove_file(&rt, path.as_str()).is_ok();
        assert!(rt; removed);
    }
    for emptied in [folder.as_str(), outer.as_str()] {
        let removed = fs::remove_dir(&rt, emptied).is_ok();
        assert!(rt; removed);
    }
    Ok(())
}

// A shelf for a look makes nothing: what isn't there reads 0, and takes no write.
#[test]
fn looks(rt: HostRuntime) -> Result<(), Fail> {
    let alloc = rt.alloc();
    let folder = format!(in alloc; "/tmp/swallow-look-{}", process::id(rt.process()))?;
    let mut missing = FileShelf::for_a_look(alloc, rt, rt.stderr(), folder.as_str())?;
    assert_eq!(rt; taken(&mut missing, 1), Ok((4096, [0, 0])));
    assert_eq!(rt; written(&mut missing, 2, &[5, 6]), Err(MediumFault));
    drop(missing);
    let unmade = fs::remove_dir(&rt, folder.as_str()).is_err();
    assert!(rt; unmade);
    let mut shelf = FileShelf::new(alloc, rt, rt.stderr(), folder.as_str())?;
    assert_eq!(rt; written(&mut shelf, 1, &[5, 6]), Ok((4096, [5, 6])));
    drop(shelf);
    let mut look = FileShelf::for_a_look(alloc, rt, rt.stderr(), folder.as_str())?;
    assert_eq!(rt; taken(&mut look, 1), Ok((4096, [5, 6])));
    assert_eq!(rt; taken(&mut look, 2), Ok((4096, [0, 0])));
    drop(look);
    for name in ["repository-1-0", "lock"] {
        let path = format!(in alloc; "{}/{name}", folder.as_str())?;
        let removed = fs::remove_file(&rt, path.as_str()).is_ok();
        assert!(rt; removed);
    }
    // A second medium would keep the folder.
    let removed = fs::remove_dir(&rt, folder.as_str()).is_ok();
    assert!(rt; removed);
    Ok(())
}

// A volume that was lost can't be taken: the second of three, or the first if the second is there.
#[test]
fn lost(rt: HostRuntime) -> Result<(), Fail> {
    let alloc = rt.alloc();
    let folder = format!(in alloc; "/tmp/swallow-lost-{}", process::id(rt.process()))?;
    let mut shelf = FileShelf::new(alloc, rt, rt.stderr(), folder.as_str())?;
    for volume in [0u32, 2] {
        let taken = shelf.take(NodeKind::Repository, 1, volume).is_ok();
        assert!(rt; taken);
    }
    drop(shelf);
    let mut again = FileShelf::new(alloc, rt, rt.stderr(), folder.as_str())?;
    let lost = again.take(NodeKind::Repository, 1, 1).is_err();
    // No volume follows the last one, and none follows that of a broker.
    let last = again.take(NodeKind::Repository, 1, 2).is_ok();
    let broker = again.take(NodeKind::Broker, 1, 0).is_ok();
    assert!(rt; lost && last && broker);
    drop(again);
    let path = format!(in alloc; "{}/repository-1-1", folder.as_str())?;
    let unmade = fs::remove_file(&rt, path.as_str()).is_err();
    assert!(rt; unmade);
    for name in ["repository-1-0", "repository-1-2", "broker-1-0", "lock"] {
        let path = format!(in alloc; "{}/{name}", folder.as_str())?;
        let removed = fs::remove_file(&rt, path.as_str()).is_ok();
        assert!(rt; removed);
    }
    let removed = fs::remove_dir(&rt, folder.as_str()).is_ok();
    assert!(rt; removed);
    Ok(())
}

// The pages of a medium of the first repository.
fn pages<S: Shelf>(shelf: &mut S, volume: u32) -> Result<u32, MediumFault> {
    let medium = shelf.take(NodeKind::Repository, 1, volume)?;
    Ok(medium.pages())
}

// The pages of a medium, after a byte of this page was written.
fn touch<M: Medium>(medium: M, page: u32) -> Result<u32, MediumFault>
    requires { M.is_failed medium ≡ false }
{
    let mut medium = medium;
    let pages = medium.pages();
    if page >= pages {
        return Err(MediumFault);
    }
    medium.write(page, 4095, &[1])?;
    Ok(pages)
}

fn touched<S: Shelf>(shelf: &mut S, page: u32) -> Result<u32, MediumFault> {
    let medium = shelf.take(NodeKind::Repository, 1, 0)?;
    touch(medium, page)
}

// A file grows once the page in its middle isn't blank, and the next volume is as long. A look changes none.
#[test]
fn growth(rt: HostRuntime) -> Result<(), Fail> {
    let alloc = rt.alloc();
    let folder = format!(in alloc; "/tmp/swallow-growth-{}", process::id(rt.process()))?;
    let mut shelf = FileShelf::new(alloc, rt, rt.stderr(), folder.as_str())?;
    assert_eq!(rt; touched(&mut shelf, 2047), Ok(4096));
    drop(shelf);
    let mut half = FileShelf::new(alloc, rt, rt.stderr(), folder.as_str())?;
    assert_eq!(rt; touched(&mut half, 2048), Ok(4096));
    drop(half);
    let mut look = FileShelf::for_a_look(alloc, rt, rt.stderr(), folder.as_str())?;
    assert_eq!(rt; pages(&mut look, 0), Ok(4096));
    drop(look);
    let mut grown = FileShelf::new(alloc, rt, rt.stderr(), folder.as_str())?;
    assert_eq!(rt; pages(&mut grown, 0), Ok(8192));
    assert_eq!(rt; pages(&mut grown, 1), Ok(8192));
    drop(grown);
    for name in ["repository-1-0", "repository-1-1", "lock"] {
        let path = format!(in alloc; "{}/{name}", folder.as_str())?;
        let removed = fs::remove_file(&rt, path.as_str()).is_ok();
        assert!(rt; removed);
    }
    let removed = fs::remove_dir(&rt, folder.as_str()).is_ok();
    assert!(rt; removed);
    Ok(())
}

// What is no regular file is no medium, and a link isn't followed.
#[test]
fn kinds(rt: HostRuntime) -> Result<(), Fail> {
    let alloc = rt.alloc();
    let folder = format!(in alloc; "/tmp/swallow-kinds-{}", process::id(rt.process()))?;
    let inner = format!(in alloc; "{}/repository-1-0", folder.as_str())?;
    let link = format!(in alloc; "{}/repository-2-0", folder.as_str())?;
    let made = fs::create_dir_all(&rt, inner.as_str()).is_ok();
    let linked = symlink(&rt, "/dev/null", link.as_str()).is_ok();
    assert!(rt; made && linked);
    let mut look = FileShelf::for_a_look(alloc, rt, rt.stderr(), folder.as_str())?;
    assert_eq!(rt; taken(&mut look, 1), Err(MediumFault));
    assert_eq!(rt; taken(&mut look, 2), Err(MediumFault));
    drop(look);
    let removed = fs::remove_file(&rt, link.as_str()).is_ok()
        && fs::remove_dir(&rt, inner.as_str()).is_ok()
        && fs::remove_dir(&rt, folder.as_str()).is_ok();
    assert!(rt; removed);
    Ok(())
}

#[test]
fn memory_shelf(rt: HostRuntime) -> Result<(), Fail> {
    let alloc = rt.alloc();
    let mut shelf = MemoryShelf::new(alloc, 3);
    assert_eq!(rt; taken(&mut shelf, 1), Ok((3, [0, 0])));
    assert_eq!(rt; taken(&mut shelf, 1), Err(MediumFault));
    let medium = MemoryMedium::new(alloc, 2, Vec::new(alloc))?;
    let put = shelf.put(NodeKind::Repository, 1, 0, medium).is_ok();
    assert!(rt; put);
    assert_eq!(rt; written(&mut shelf, 1, &[5, 6]), Ok((2, [5, 6])));
    shelf.fail(NodeKind::Repository, 2, 0)?;
    assert_eq!(rt; taken(&mut shelf, 2), Err(MediumFault));
    assert_eq!(rt; taken(&mut shelf, 3), Ok((3, [0, 0])));
    assert_eq!(rt; shelf.starved(), 0);
    Ok(())
}
