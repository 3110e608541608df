//! Runs the command of the command line over real files, the standard streams and TCP connections.
#![tactic(auto)]

use std::alloc::Global;
use std::process::ExitCode;
use std::string::String;
use std::{env, io};
use vod_app::{Ended, run};
use vod_host::{FileStore, HostDoor, HostSink};

// The status where standard output failed.
const SINK_FAILED: u8 = 4;

// The status where memory ran out.
const NO_MEMORY: u8 = 5;

fn main(rt: HostRuntime) -> ExitCode {
    ExitCode::from(run_words(&rt).unwrap_or(NO_MEMORY))
}

// Runs the words of the command line, or finds no memory for what the run needs.
fn run_words(rt: &HostRuntime) -> Option<u8> {
    let alloc = rt.alloc();
    let words = words(alloc, rt).ok()?;
    let store = FileStore::new(alloc, rt.clone().ok()?).ok()?;
    let mut door = HostDoor::new(alloc, rt.clone().ok()?);
    let mut out = HostSink::new(alloc, rt.stdout()).ok()?;
    let mut err = HostSink::new(alloc, rt.stderr()).ok()?;
    let Ended { status, store: _ } = run(alloc, &words, store, &mut door, &mut out, &mut err);
    // What the sinks hold back is written now.
    let status = if out.finish().is_err() && matches!(status, 0 | 2) {
        SINK_FAILED
    } else {
        status
    };
    let _ = err.finish();
    Some(status)
}

// The words behind the program's name.
fn words(alloc: Global, rt: &HostRuntime) -> io::Result<Vec<String>> {
    let mut words = Vec::new(alloc);
    for word in env::args(rt)?.skip(1) {
        words.push(word)?;
    }
    Ok(words)
}
