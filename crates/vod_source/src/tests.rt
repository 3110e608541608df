//! What the objects in memory answer, and the reads of a range.
ghost use Rattle.std.specs.Prelude.{IsTrue};
ghost use Rattle.vod_source.specs.Stored.{InFile};

use super::*;
use std::alloc::{AllocError, Global};
use std::test::Fail;
use vod_types::Name;

// Bytes that count up from 0 and begin again after 250.
fn counting(alloc: Global, n: usize) -> Result<Vec<u8>, AllocError> {
    (0..n).map(|i| (i % 251) as u8).collect(alloc)
}

// Links that give one byte each.
fn links(alloc: Global, bytes: &[u8]) -> Result<Vec<MemLink>, Fail> {
    let mut links = Vec::new(alloc);
    for byte in bytes {
        let piece = vec![in alloc; *byte]?;
        links.push(MemLink::new(alloc, vec![in alloc; piece]?, 1, Vec::new(alloc))?)?;
    }
    Ok(links)
}

// Whether a range lies in a file, by a call of `size`.
fn is_within<S: Store>(store: &mut S, name: &str, at: u64, n: u64) -> bool
    ensures { IsTrue result → InFile (S.content store.new) name.now at n }
{
    match store.size(name) {
        Ok(Some(size)) => at <= size && n <= size - at,
        _ => false,
    }
}

// Whether a store lends these bytes, by a call of `size` and one of `lend`.
fn lends<S: Store>(store: &mut S, name: &str, at: u64, want: &[u8]) -> bool {
    let n = want.len();
    if n == 0 || n > 65536 || !is_within(store, name, at, n as u64) {
        return false;
    }
    store.lend(name, at, n) == Ok(want)
}

// The byte that a link gives, or none at the end of its input or at a failure.
fn taken<L: Link>(link: &mut L) -> Option<u8> {
    let mut room = [0];
    match link.take(&mut room) {
        Ok(1) => Some(room[0]),
        _ => None,
    }
}

#[test]
fn doors_take_their_links_back(rt: HostRuntime) -> Result<(), Fail> {
    let alloc = rt.alloc();
    let mut door = MemDoor::new(alloc, links(alloc, &[1, 2])?, vec![in alloc; 3]?)?;
    assert_eq!(rt; door.listen("127.0.0.1:0"), Ok(()));
    // The third call fails, and after the fourth no link is left.
    for byte in [Some(1), None, Some(2), None] {
        match door.next() {
            Ok(mut link) => {
                assert_eq!(rt; taken(&mut link), byte);
                door.give_back(link);
            }
            Err(_) => assert_eq!(rt; None, byte),
        }
    }
    assert_eq!(rt; door.back().len(), 2);
    Ok(())
}

#[test]
fn stores_of_one_file(rt: HostRuntime) -> Result<(), Fail> {
    let alloc = rt.alloc();
    let first = counting(alloc, 3)?;
    assert!(rt; first.len() == 3);
    let mut hole = HoleStore::new(alloc, Name::new(alloc, "h")?, first, 4_000_000_000)?;
    assert!(rt; lends(&mut hole, "h", 2, &[2, 0, 0]));
    assert!(rt; lends(&mut hole, "h", 3_999_999_999, &[0]));
    let (before, after) = (vec![in alloc; 1, 2]?, vec![in alloc; 3, 4]?);
    assert!(rt; before.len() == after.len());
    let mut shift = ShiftStore::new(alloc, Name::new(alloc, "s")?, before, after, 1)?;
    assert!(rt;
        lends(&mut shift, "s", 0, &[1, 2]),
        "the first loan shows the first text"
    );
    assert!(rt;
        lends(&mut shift, "s", 0, &[3, 4]),
        "the second loan shows the second"
    );
    Ok(())
}
