//! What comes of events.

ghost use Rattle.std.specs.Prelude.{◌≡◌};

use hub_core::{AttachError, CapacityError, Hub, HubError, NoSession, Pumped, Said};
use hub_ends::{MemoryInlet, MemoryOutlet, SessionId};
use irc_line::{FeedError, Splitter};
use net_view::{NetworkView, OutOfMemory};
use thiserror::Error;

/// A hub over ends in memory.
pub type MemoryHub<V> = Hub<V, MemoryInlet, MemoryOutlet>;

/// What an event was answered.
#[derive(Drop)]
pub enum Reply {
    /// What the hub did of each line that the piece completed, in order.
    Up(Vec<Pumped>),
    /// What the hub did of the loss.
    Lost(Pumped),
    /// The number of the new session, or why there is none.
    Attach(Result<SessionId, AttachError>),
    /// Whether there was such a session, to detach or to leave.
    Detach(Result<(), NoSession>),
    /// What was done of the line, or why it was refused.
    Said(Result<Said, HubError>),
    /// How many packets were taken out: 0 if no session has the number.
    Drained(usize),
}

/// Why a run stopped before its last event was done.
#[derive(Clone, Copy, Debug, PartialEq, Eq, Error)]
pub enum Stop {
    /// An allocation was refused.
    #[error("out of memory")]
    Memory,
    /// A message came from the network for which no number is left.
    #[error("numbers spent")]
    Spent,
    /// More bytes came without LF than a line may have.
    #[error("line too long")]
    TooLong,
}

impl From<OutOfMemory> for Stop {
    ghost use Rattle.hub_runs.specs.declared.outcome.Stop.TheVariants as stop;

    ghost from_gives = { λ _ s. s ≡ stop.Memory };

    fn from(_e: OutOfMemory) -> Stop {
        Stop::Memory
    }
}

impl From<FeedError> for Stop {
    ghost use Rattle.hub_runs.specs.Worlds.{stop_of_feed};

    ghost from_gives = { λ e s. s ≡ stop_of_feed e };

    fn from(e: FeedError) -> Stop {
        match e {
            FeedError::TooLong => Stop::TooLong,
            FeedError::OutOfMemory => Stop::Memory,
        }
    }
}

impl From<HubError> for Stop {
    ghost use Rattle.hub_runs.specs.Worlds.{stop_of};

    ghost from_gives = { λ e s. s ≡ stop_of e };

    fn from(e: HubError) -> Stop {
        match e {
            HubError::Spent => Stop::Spent,
            HubError::OutOfMemory => Stop::Memory,
        }
    }
}

/// What there is after events.
#[derive(Drop)]
pub struct World<V: NetworkView + Drop> {
    /// The hub.
    pub hub: MemoryHub<V>,
    /// What cuts the bytes of the network into lines.
    pub splitter: Splitter,
    /// What was answered, one for each event that is done, in order.
    pub replies: Vec<Reply>,
    /// The outlets of the sessions that were detached, in order.
    pub gone: Vec<MemoryOutlet>,
}

/// How far a run came.
#[derive(Drop)]
pub struct Run<V: NetworkView + Drop> {
    /// How many events are done.
    pub done: usize,
    /// What there is after them, and after the lines that were already taken of the next one.
    pub world: World<V>,
    /// Why it stopped; `None` if all events are done.
    pub stopped_by: Option<Stop>,
}

/// Why a run was not begun.
#[derive(Clone, Copy, Debug, PartialEq, Eq, Error)]
pub enum StartError {
    /// The setup's history is 0 or above 10,000 messages. It is looked for first.
    #[error("bad capacity")]
    BadCapacity,
    /// An allocation was refused.
    #[error("out of memory")]
    OutOfMemory,
}

impl From<CapacityError> for StartError {
    ghost use Rattle.hub_runs.specs.Worlds.{start_error_of};

    ghost from_gives = { λ e s. s ≡ start_error_of e };

    fn from(e: CapacityError) -> StartError {
        match e {
            CapacityError::BadCapacity => StartError::BadCapacity,
            CapacityError::OutOfMemory => StartError::OutOfMemory,
        }
    }
}

impl From<OutOfMemory> for StartError {
    ghost use Rattle.hub_runs.specs.declared.outcome.StartError.TheVariants as cause;

    ghost from_gives = { λ _ s. s ≡ cause.OutOfMemory };

    fn from(_e: OutOfMemory) -> StartError {
        StartError::OutOfMemory
    }
}
