//! What a network sends: during the registration, and then to the connection's end.

ghost use Rattle.std.specs.Prelude.{◌≡◌, IfOk};
ghost use Rattle.shell.specs.Inputs.{network_remaining};
ghost use Rattle.shell.specs.Readers.{recalled, recalling_input};

use crate::recalling::Recalling;
use crate::timed::{OnSilence, Patient, Until};
use crate::wire::Wire;
use std::io::Read;
use std::rt::Clock;
use std::time::Duration;
use std::{io, mem};

/// Where a connection is.
#[derive(Drop)]
enum Phase<'a, S, A, C> {
    Registering(Until<'a, S, C>),
    Live(Patient<S, A>),
    Over,
}

/// A reader of a network: in a limited time during the registration, and from then on until it is
/// silent for too long.
#[derive(Drop)]
pub struct NetworkInput<'a, S, A, C> {
    phase: Phase<'a, S, A, C>,
}

impl<'a, S: Wire + Drop, A: OnSilence + Drop, C: Clock> NetworkInput<'a, S, A, C> {
    /// The input of a connection whose registration begins now, and may take this long.
    pub fn start(clock: &'a C, input: S, time: Duration) -> io::Result<NetworkInput<'a, S, A, C>>
        ensures { IfOk result (λ r. network_remaining S.remaining r ≡ S.remaining input) }
    {
        let until = Until::start(input, clock, time)?;
        Ok(NetworkInput {
            phase: Phase::Registering(until),
        })
    }

    /// Reads to the connection's end from now on. It fails at the last of this many silences in
    /// succession, each of this time, and does something at each before it.
    fn begin_live(&mut self, silence: Duration, silences: u32, on_silence: A) -> io::Result<()>
        ensures kept { network_remaining S.remaining self.new ≡ network_remaining S.remaining self.old }
    {
        match mem::replace(&mut self.phase, Phase::Over) {
            Phase::Registering(until) => {
                let mut input = until.into_input();
                let limited = input.limit_reads(Some(silence));
                self.phase = Phase::Live(Patient::new(input, on_silence, silences));
                limited
            }
            other => {
                self.phase = other;
                Ok(())
            }
        }
    }
}

impl<S: Wire + Drop, A: OnSilence + Drop, C: Clock> Recalling<NetworkInput<'_, S, A, C>> {
    /// Reads to the connection's end from now on. It fails at the last of this many silences in
    /// succession, each of this time, and does something at each before it.
    pub fn begin_live(&mut self, silence: Duration, silences: u32, on_silence: A) -> io::Result<()>
        ensures kept { network_remaining S.remaining (recalling_input self.new)
            ≡ network_remaining S.remaining (recalling_input self.old) }
        ensures recalled { recalled self.new ≡ recalled self.old }
    {
        self.input.begin_live(silence, silences, on_silence)
    }
}

impl<S: Wire + Drop, A: OnSilence + Drop, C: Clock> Read for NetworkInput<'_, S, A, C> {
    ghost remaining = { network_remaining S.remaining };

    fn read(&mut self, buf: &mut [u8]) -> io::Result<usize> {
        match &mut self.phase {
            Phase::Registering(until) => until.read(buf),
            Phase::Live(patient) => patient.read(buf),
            Phase::Over => Ok(0),
        }
    }
}
