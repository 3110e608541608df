//! How a command ends.

use mp4_flat::PackEnd;
use vod_session::DoorEnd;
use vod_types::Refusal;

/// How a command ended.
#[derive(Debug, Drop)]
pub enum End {
    /// All is done.
    Done,
    /// The words are of no form.
    Usage,
    /// The request was refused, or its body is cut by a bad sample.
    Refused(Refusal),
    /// A call on the store failed.
    StoreFailed,
    /// A call on the output failed.
    SinkFailed,
    /// Memory ran out.
    NoMemory,
    /// The door gave no further connection, or couldn't be opened.
    DoorFailed,
}

impl End {
    ghost use Rattle.std.specs.Prelude.{◌≡◌};
    ghost use Rattle.list_model.specs.Command.{outcome_status};
    ghost use Rattle.vod_turns.specs.Outcomes.{door_outcome};
    ghost use Rattle.vod_app.specs.Runs.{outcome_of, pack_outcome, refused_outcome};

    /// The end of a command of which a call was refused.
    pub fn refused(refusal: Refusal) -> End
        ensures { outcome_of result ≡ refused_outcome refusal }
    {
        match refusal {
            Refusal::StoreFailed => End::StoreFailed,
            Refusal::NoMemory => End::NoMemory,
            refusal => End::Refused(refusal),
        }
    }

    /// The end of a command whose packaging ended so.
    pub fn packed(end: PackEnd) -> End
        ensures { outcome_of result ≡ pack_outcome end }
    {
        match end {
            PackEnd::Whole => End::Done,
            PackEnd::Refused(refusal) => End::refused(refusal),
            PackEnd::SinkFailed => End::SinkFailed,
        }
    }

    /// The end of a command that served a door.
    pub fn of_door(end: DoorEnd) -> End
        ensures { outcome_of result ≡ door_outcome end }
    {
        match end {
            DoorEnd::Served => End::Done,
            DoorEnd::DoorFailed => End::DoorFailed,
            DoorEnd::NoMemory => End::NoMemory,
        }
    }

    /// The status with which the program ends.
    pub fn status(&self) -> u8
        ensures { result ≡ outcome_status (outcome_of self.now) }
    {
        match self {
            End::Done => 0,
            End::Usage => 1,
            End::Refused(_) => 2,
            End::StoreFailed => 3,
            End::SinkFailed => 4,
            End::NoMemory => 5,
            End::DoorFailed => 6,
        }
    }
}
