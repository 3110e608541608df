//! Runs of the program over a store.

use std::alloc::Global;
use std::string::String;
use std::test::Fail;
use vod_app::{Ended, run};
use vod_source::{MemDoor, Store, VecSink};

/// What a run came to: its store, its status, what it wrote, and the line that tells its end.
#[derive(Drop)]
pub struct Run<S: Store> {
    pub store: S,
    pub status: u8,
    pub body: Vec<u8>,
    pub line: Vec<u8>,
}

/// Runs words, which single spaces part, over a store. An empty text has no word.
pub fn ran<S: Store + Drop>(alloc: Global, words: &str, store: S) -> Result<Run<S>, Fail> {
    let mut spelled = Vec::new(alloc);
    if !words.is_empty() {
        for word in words.split(' ') {
            spelled.push(String::from_str(alloc, word)?)?;
        }
    }
    let mut door = MemDoor::new(alloc, Vec::new(alloc), Vec::new(alloc))?;
    let mut out = VecSink::new(Vec::new(alloc));
    let mut err = VecSink::new(Vec::new(alloc));
    let Ended { status, store } = run(alloc, &spelled, store, &mut door, &mut out, &mut err);
    Ok(Run {
        store,
        status,
        body: out.into_vec(),
        line: err.into_vec(),
    })
}
