//! What is wrong with a recording.
ghost use Rattle.std.specs.Prelude.{◌≡◌};
ghost use Rattle.jdwp_recording.specs.FaultNumbers.{number_of_fault};
ghost use Rattle.jdwp_recording.specs.declared.recording_fault.RecordingFault.TheVariants as fault;

use std::alloc::{AllocError, AllocFailed};
use thiserror::Error;

/// Why a recording gives no capture, or only the beginning of one. A packet is told by its number in the recording, from 1.
#[derive(Clone, Copy, Debug, PartialEq, Eq, Error)]
pub enum RecordingFault {
    /// It begins neither as pcap nor as pcapng.
    #[error("fault 71: a file that begins neither as pcap nor as pcapng")]
    NoRecording,
    /// What follows the packet of this number, 0 for the head of the file, is no part of such a file.
    #[error("fault 72: what follows packet {0} is no record of such a file")]
    Damaged(usize),
    /// The file ends in the midst of what follows the packet of this number.
    #[error("fault 73: the file ends in the midst of what follows packet {0}")]
    CutOff(usize),
    /// There is no connection of this number, counted from 1.
    #[error("fault 74: no TCP connection {0}")]
    NoConnection(usize),
    /// Nothing tells which side of the connection is the target.
    #[error("fault 75: nothing tells which side is the target, and --target-port can")]
    NoTarget,
    /// Bytes that one side sent are in no packet; the packet of this number has what follows them, or shows that they were sent.
    #[error("fault 76: bytes before those of packet {0} are missing")]
    Hole(usize),
    /// Bytes of the packet of this number were not recorded (the snap length), nor do they stand in another one.
    #[error("fault 77: packet {0} was not recorded whole")]
    Snapped(usize),
    /// An allocation was refused.
    #[error("no memory")]
    NoMemory,
}

impl RecordingFault {
    /// The number by which it is told: 71 to 77, and 0 for want of memory.
    pub fn number(self) -> u16
        ensures { result ≡ number_of_fault self }
    {
        match self {
            RecordingFault::NoRecording => 71,
            RecordingFault::Damaged(_) => 72,
            RecordingFault::CutOff(_) => 73,
            RecordingFault::NoConnection(_) => 74,
            RecordingFault::NoTarget => 75,
            RecordingFault::Hole(_) => 76,
            RecordingFault::Snapped(_) => 77,
            RecordingFault::NoMemory => 0,
        }
    }
}

impl From<AllocError> for RecordingFault {
    ghost from_gives = { λ _ f. f ≡ fault.NoMemory };

    fn from(_error: AllocError) -> RecordingFault {
        RecordingFault::NoMemory
    }
}

impl<T: Drop> From<AllocFailed<T>> for RecordingFault {
    ghost from_gives = { λ _ f. f ≡ fault.NoMemory };

    fn from(_error: AllocFailed<T>) -> RecordingFault {
        RecordingFault::NoMemory
    }
}
