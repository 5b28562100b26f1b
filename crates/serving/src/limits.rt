//! How long things may take, and how many there may be.

use bnc_config::Config;
use hub_threads::Turns;
use keep::Watch;
use std::time::Duration;
use steward::{Terms, Times};

/// How many bytes a MiB has.
const MIB: u64 = 1_048_576;

/// A time in milliseconds.
pub(crate) fn millis(time: Duration) -> u64 {
    u64::try_from(time.as_millis()).unwrap_or(u64::MAX)
}

/// How many bytes a network may keep by these settings.
pub(crate) fn budget_of(config: &Config) -> u64 {
    u64::from(config.memory()).saturating_mul(MIB)
}

/// How many MiB these bytes are, without what is left over.
pub(crate) fn mebibytes(bytes: u64) -> u64 {
    bytes / MIB
}

/// How long things may take, and how many there may be: of the program by [`Limits::of_program`],
/// in a test smaller ones.
#[derive(Clone, Copy)]
pub struct Limits {
    /// How many connections of clients are accepted.
    pub accepts: Turns,
    /// How many connections may wait for their login at once.
    pub logins: usize,
    /// How many of these one address may have.
    pub logins_of_address: usize,
    /// Whether an address of the loopback range may have all of them: with a TLS proxy all clients
    /// come from there.
    pub exempts_loopback: bool,
    /// From a connection's beginning to the end of its login.
    pub login: Duration,
    /// The same for a login that begins while half of the limit of those that wait is reached.
    pub crowded_login: Duration,
    /// From the line that completes a login to the answer to a wrong password.
    pub wrong_password: Duration,
    /// How many may wait for such an answer at once.
    pub late: usize,
    /// After a connection could not be accepted, or no thread be started for it.
    pub pause: Duration,
    /// One write to a client or to a network.
    pub write: Duration,
    /// How the system watches the connections of clients.
    pub watch: Watch,
    /// How often a network is dialled.
    pub dials: Turns,
    /// Between the end of a connection to a network, or of the attempt at one, and the next dial.
    pub retry: Duration,
    /// The same at most, after dials that failed again and again.
    pub most: Duration,
    /// From one dial at an address to the next at the same one.
    pub gap: Duration,
    /// For the last address of a network to answer, or its only one.
    pub connect: Duration,
    /// The same for each address before the last.
    pub connect_in_turn: Duration,
    /// From the connection to a network to its welcome.
    pub registration: Duration,
    /// How long no byte may come from a network before it is sent a PING.
    pub silence: Duration,
    /// How many of these in succession end its connection.
    pub silences: u32,
    /// How many sessions a network has at most, those included whose writer has not ended.
    pub sessions: usize,
    /// How many bytes the clients of a network, all together, may say to it at once.
    pub burst: u64,
    /// How many bytes a second they may say after that; 0 counts as 1.
    pub pace: u64,
    /// At the end of the service, for all clients and networks to take their last words, and for
    /// the log to be written.
    pub stop: Duration,
    /// How many turns a pump makes at a time.
    pub turns: Turns,
    /// How many packets may wait for a network, and how many items of it for its hub; 0 counts as
    /// 1.
    pub packets: usize,
    /// How long a login waits at most for its burst, while several long ones of its network wait for
    /// their writers.
    pub burst_wait: Duration,
    /// From a change of what a network keeps to the writing of its journal.
    pub unwritten: Duration,
    /// How long before a client was heard something must have been written to it, so that it surely
    /// received that.
    pub receipt: Duration,
}

impl Limits {
    /// Those of the program, with the time between two dials that the settings give, in seconds.
    pub fn of_program(retry: u64) -> Limits {
        Limits {
            accepts: Turns::Endless,
            logins: 256,
            logins_of_address: 16,
            exempts_loopback: true,
            login: Duration::from_secs(60),
            crowded_login: Duration::from_secs(15),
            wrong_password: Duration::from_secs(1),
            late: 64,
            pause: Duration::from_millis(100),
            write: Duration::from_secs(30),
            watch: Watch {
                idle: 60,
                limit: 60_000,
            },
            dials: Turns::Endless,
            retry: Duration::from_secs(retry),
            most: Duration::from_secs(600),
            gap: Duration::from_secs(1),
            connect: Duration::from_secs(30),
            connect_in_turn: Duration::from_secs(10),
            registration: Duration::from_secs(120),
            silence: Duration::from_secs(120),
            silences: 2,
            sessions: 64,
            burst: 1_500,
            pace: 100,
            stop: Duration::from_secs(2),
            turns: Turns::Endless,
            packets: 256,
            burst_wait: Duration::from_secs(10),
            unwritten: Duration::from_millis(200),
            receipt: Duration::from_secs(5),
        }
    }

    /// How many clients there may be.
    pub(crate) fn of_clients(&self) -> steward::Limits {
        steward::Limits::new(
            self.logins,
            self.logins_of_address,
            self.late,
            self.sessions,
        )
    }

    /// How long networks rest, with this time between two dials.
    pub(crate) fn times(&self, retry: Duration) -> Times {
        Times::new(millis(retry), millis(self.most), millis(self.gap))
    }

    /// How long the clients of a network that is given up may take until they have their last lines.
    pub(crate) fn grace(&self) -> Duration {
        self.stop / 2
    }

    /// How long last lines may take, for how many milliseconds a login waits while channels are
    /// joined, and how many bytes a network may keep.
    pub(crate) fn terms(&self, wait: u64, budget: u64) -> Terms {
        Terms {
            answer: millis(self.wrong_password),
            grace: millis(self.grace()),
            quit: millis(self.stop / 2),
            rest: millis(self.stop / 4),
            wait,
            budget,
        }
    }
}
