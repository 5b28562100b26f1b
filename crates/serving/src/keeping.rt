//! What the shell adds to a connection to a network: its limits, channels that are joined again,
//! and the log.

ghost use Rattle.std.specs.Prelude.{◌≡◌};

use crate::connection::Connection;
use crate::dialling::Dialling;
use crate::last_words::LastWords;
use crate::network_event::{Ending, GivenUp, NetworkEvent};
use crate::network_input::{KeepAlive, NetworkInput};
use crate::network_output::NetworkOutput;
use crate::opening::{Opening, Plan};
use crate::rejoining::rejoin;
use crate::saying_again::{away_line, holder_of_nick, regain_from};
use bnc_config::NetworkConfig;
use hub_threads::{ReadEnd, WRITE_CALL};
use irc_line::Line;
use shell::{Holder, Recalling};
use std::io;
use std::io::Read;
use std::rt::Clock;
use std::sync::Wait;
use std::time::Duration;
use upstream::{Keeper, NetworkEnd};

/// What reads a network.
pub(crate) type Input<'a, R> = Recalling<NetworkInput<'a, R>>;

/// Watches one connection to a network.
#[derive(Drop)]
pub(crate) struct Keeping<'a, R: Wait + Clock> {
    pub(crate) dialling: Dialling<'a, R>,
    /// The settings by which it was dialled.
    pub(crate) settings: &'a NetworkConfig,
    pub(crate) connection: &'a Connection,
    /// What it sends by itself after the registration.
    pub(crate) opening: Opening,
    /// Which one of ours had the wanted nick when it was dialled.
    pub(crate) holder: Holder,
    /// Why it is given up, if it is.
    pub(crate) given_up: GivenUp,
}

/// Our nick by a network's welcome.
fn nick_in(lines: &[Line]) -> &[u8] {
    match lines.first() {
        Some(welcome) => welcome.param(0).unwrap_or(b""),
        None => b"",
    }
}

/// Why a connection was lost.
fn cause_of(ended: ReadEnd) -> &'static str {
    match ended {
        ReadEnd::EndOfInput => "closed",
        ReadEnd::ReadFault => "cannot read, or silent for too long",
        ReadEnd::TooLong => "line too long",
        ReadEnd::OutOfMemory => "out of memory",
        ReadEnd::TurnsSpent => "read too often",
    }
}

/// How a connection ended, by how serving it ended, what the network said last, and the cause if it
/// was given up.
pub(crate) fn ending_of(
    end: NetworkEnd,
    said: LastWords,
    connection: &Connection,
    given_up: GivenUp,
) -> Ending<'static> {
    if let Some(farewell) = connection.farewell() {
        return Ending::Parted(farewell);
    }
    match end {
        NetworkEnd::Lost(_) if connection.is_unsaid() => Ending::Lost {
            cause: "cannot write",
            said,
        },
        NetworkEnd::NotRegistered(fault) => Ending::NotRegistered { fault, said },
        NetworkEnd::Lost(ended) => Ending::Lost {
            cause: cause_of(ended),
            said,
        },
        NetworkEnd::GivenUp => Ending::GivenUp(given_up),
    }
}

impl<'a, R: Wait + Clock> Keeping<'a, R> {
    /// Sets the time limits that the connection has from the welcome on.
    fn begin_live(&self, input: &mut Input<'a, R>) -> io::Result<()>
        ensures { ⟦<Input<'a, R> as Read>⟧.remaining input.new
            ≡ ⟦<Input<'a, R> as Read>⟧.remaining input.old }
    {
        let call = Duration::from_millis(WRITE_CALL);
        self.connection.stream().set_write_timeout(Some(call))?;
        let Dialling {
            rt,
            shared,
            station,
            ..
        } = self.dialling;
        let limits = shared.limits();
        let slot = station.slot();
        input.begin_live(limits.silence, limits.silences, KeepAlive { rt, slot })
    }

    /// Which one of ours has the wanted nick, or had it when this connection was dialled.
    fn holder(&self) -> Holder {
        match holder_of_nick(&self.dialling, self.settings) {
            Holder::Nobody => self.holder,
            holder => holder,
        }
    }

    /// Asks for what outlives a connection, or notes that it is to be asked for later: the channels
    /// that were lost, AWAY, and the wanted nick if we have another one. If the settings have lines that
    /// come first, all channels are joined once these were sent.
    fn ask_again(&self, writer: &mut NetworkOutput<R>, lines: &[Line]) -> io::Result<()> {
        let Dialling { rt, shared, .. } = self.dialling;
        let now = shared.ticks(rt);
        if self.settings.on_connect().is_empty() {
            rejoin(&self.dialling, self.settings, writer)?;
        }
        let plan = Plan {
            away: away_line(&self.dialling, self.settings)?,
            regain: regain_from(self.settings, nick_in(lines), self.holder(), now),
        };
        self.opening.begin(rt, self.settings, plan, now);
        Ok(())
    }

    /// Asks for what outlives a connection, and sets the time limits that the connection has from
    /// then on.
    fn begin(
        &self,
        input: &mut Input<'a, R>,
        writer: &mut NetworkOutput<R>,
        lines: &[Line],
    ) -> Result<(), GivenUp>
        ensures { ⟦<Input<'a, R> as Read>⟧.remaining input.new
            ≡ ⟦<Input<'a, R> as Read>⟧.remaining input.old }
    {
        if self.ask_again(writer, lines).is_err() {
            return Err(GivenUp::NotRejoined);
        }
        match self.begin_live(input) {
            Ok(()) => Ok(()),
            Err(_) => Err(GivenUp::NoLimits),
        }
    }
}

impl<'a, R: Wait + Clock> Keeper<Input<'a, R>, NetworkOutput<R>> for Keeping<'a, R> {
    fn registered(
        &mut self,
        reader: &mut Input<'a, R>,
        writer: &mut NetworkOutput<R>,
        lines: &[Line],
    ) -> bool {
        self.dialling.await_channels(self.settings);
        if !self.dialling.is_welcome() {
            return false;
        }
        let Dialling { rt, station, .. } = self.dialling;
        station.nick_tries().lock(rt).welcomed();
        self.dialling.tell_connected(&NetworkEvent::Connected {
            address: self.settings.address(),
            nick: nick_in(lines),
        });
        match self.begin(reader, writer, lines) {
            Ok(()) => true,
            Err(cause) => {
                self.given_up = cause;
                false
            }
        }
    }

    fn took_lines<T: Wait>(&self, rt: &T) -> bool {
        let now = self.dialling.shared.ticks(self.dialling.rt);
        self.dialling.station.slot().pump_beside(rt, now)
    }

    fn no_thread(&mut self) {
        self.given_up = GivenUp::NoWriter;
        self.connection.hang_up();
    }

    fn ended(&mut self) {
        self.connection.end();
    }
}
