//! The line that a run writes to the standard error.

ghost use Rattle.std.specs.Prelude.{◌≡◌, ◌≤◌, map};
ghost use Rattle.std.specs.List.{concat};
ghost use Rattle.vod_source.specs.Causes.{HasCause};
ghost use Rattle.vod_source.specs.Told.{Grows};
ghost use Rattle.list_model.specs.Command.{outcome_line, refused};
ghost use Rattle.origin_model.specs.Outcomes.{GainsLine};
ghost use Rattle.vod_app.specs.Runs.{outcome_of};

use crate::ends::End;
use itoa::Buffer;
use vod_source::{Sink, SinkFailed};
use vod_types::Refusal;

const USAGE: &str =
    "usage: vodpack get|reads|plan|pack ROOT SETTINGS PATH, serve|turns ROOT SETTINGS ADDR COUNT, rehearse N\n";

/// Writes the line of an end. Where the sink fails a prefix of it stands there, and nothing else changes.
pub fn tell<E: Sink>(err: &mut E, end: &End)
    ensures line { GainsLine (outcome_of end.now) (E.written err.old) (E.written err.new) (E.faults err.old) (E.faults err.new) }
    ensures kept { E.kept err.new ≡ E.kept err.old }
    ensures later { E.faults err.old ≤ E.faults err.new }
{
    let _ = match end {
        End::Done | End::SinkFailed => Ok(()),
        End::Usage => err.put(USAGE.as_bytes()),
        End::Refused(refusal) => tell_refusal(err, refusal),
        End::StoreFailed => err.put(b"store failed\n"),
        End::NoMemory => err.put(b"no memory\n"),
        End::DoorFailed => err.put(b"door failed\n"),
    };
}

// `refused N NAME`.
fn tell_refusal<E: Sink>(err: &mut E, refusal: &Refusal) -> Result<(), SinkFailed>
    ensures written { Grows (E.written err.old) (E.written err.new) result (outcome_line (refused refusal.now)) }
    ensures kept { E.kept err.new ≡ E.kept err.old }
    ensures cause { HasCause (E.faults err.old) (E.faults err.new) result }
{
    let mut digits = Buffer::new();
    let number = digits.format(refusal.number());
    put_all(
        err,
        &[
            b"refused ",
            number.as_bytes(),
            b" ",
            refusal.word().as_bytes(),
            b"\n",
        ],
    )
}

// Writes pieces one after another, up to the first that fails.
fn put_all<K: Sink>(sink: &mut K, pieces: &[&[u8]]) -> Result<(), SinkFailed>
    ensures written { Grows (K.written sink.old) (K.written sink.new) result (concat (map (λ piece. piece.now) pieces.now)) }
    ensures kept { K.kept sink.new ≡ K.kept sink.old }
    ensures cause { HasCause (K.faults sink.old) (K.faults sink.new) result }
{
    for piece in pieces {
        sink.put(piece)?;
    }
    Ok(())
}
