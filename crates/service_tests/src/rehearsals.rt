//! Rehearsals: the lines of two numbers.

use std::alloc::Global;
use std::test::Fail;
use vod_films::ran;
use vod_source::MemStore;

#[test]
fn rehearsals_have_their_lines(rt: HostRuntime) -> Result<(), Fail> {
    let alloc = rt.alloc();
    for (words, line) in [
        (
            "rehearse 0",
            "rehearse 0 segments 65 samples 9344 media 22344\n",
        ),
        (
            "rehearse 1",
            "rehearse 1 segments 66 samples 9315 media 1234810\n",
        ),
    ] {
        // It asks nothing of this store.
        let store = MemStore::new(Vec::new(alloc), vec![in alloc; 1]?);
        let it = ran(alloc, words, store)?;
        assert_eq!(rt; str::from_utf8(&it.body)?, line);
        assert!(rt; it.status == 0 && it.line.is_empty());
    }
    Ok(())
}
