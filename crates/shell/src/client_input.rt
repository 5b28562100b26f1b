//! What a client sends: its login, and then its session.

ghost use Rattle.std.specs.Prelude.{◌≡◌, [], IfOk};
ghost use Rattle.std.specs.Io.KnownBytes.{prepend_known};
ghost use Rattle.shell.specs.Inputs.{client_remaining};

use crate::by_line::ByLine;
use crate::pace::Pace;
use crate::paced::{Neighbours, Paced};
use crate::timed::Until;
use crate::wire::Wire;
use std::alloc::Global;
use std::io::Read;
use std::rt::Clock;
use std::sync::Wait;
use std::time::Duration;
use std::{io, mem};

/// Where a client is.
#[derive(Drop)]
enum Phase<'a, S, N, R> {
    Login(ByLine<Until<'a, S, R>>),
    Session(Paced<'a, S, N, R>),
    Over,
}

/// A reader of what a client sends: line by line and in a limited time while it logs in, and at its
/// network's pace in its session. What it read ahead in the login is kept for the session.
#[derive(Drop)]
pub struct ClientInput<'a, S, N, R> {
    rt: &'a R,
    alloc: Global,
    phase: Phase<'a, S, N, R>,
}

impl<'a, S: Wire + Drop, N: Neighbours + Drop, R: Wait + Clock> ClientInput<'a, S, N, R> {
    /// The input of a client whose login may take this long, from now on.
    pub fn start(
        rt: &'a R,
        alloc: Global,
        input: S,
        time: Duration,
    ) -> io::Result<ClientInput<'a, S, N, R>>
        ensures { IfOk result (λ r. client_remaining S.remaining r
            ≡ prepend_known [] (S.remaining input)) }
    {
        let until = Until::start(input, rt, time)?;
        Ok(ClientInput {
            rt,
            alloc,
            phase: Phase::Login(ByLine::new(alloc, until)),
        })
    }

    /// Reads for a session among these neighbours from now on.
    pub fn begin_session(&mut self, neighbours: N, pace: &'a Pace)
        ensures kept { client_remaining S.remaining self.new ≡ client_remaining S.remaining self.old }
    {
        self.phase = match mem::replace(&mut self.phase, Phase::Over) {
            Phase::Login(login) => {
                let (until, ahead) = login.into_parts();
                let input = until.into_input();
                Phase::Session(Paced::new(self.rt, self.alloc, input, ahead, neighbours, pace))
            }
            other => other,
        };
    }

    /// Whether the time of the login is up and no PASS came.
    pub fn lacks_pass(&self) -> bool {
        match &self.phase {
            Phase::Login(login) => login.input().is_over() && !login.has_pass(),
            _ => false,
        }
    }

    /// How many lines of the session were read and not handed on.
    pub fn unsaid(&self) -> u64 {
        match &self.phase {
            Phase::Session(session) => session.unsaid(),
            _ => 0,
        }
    }
}

impl<S: Wire + Drop, N: Neighbours + Drop, R: Wait + Clock> Read for ClientInput<'_, S, N, R> {
    ghost remaining = { client_remaining S.remaining };

    fn read(&mut self, buf: &mut [u8]) -> io::Result<usize> {
        match &mut self.phase {
            Phase::Login(login) => login.read(buf),
            Phase::Session(session) => session.read(buf),
            Phase::Over => Ok(0),
        }
    }
}
