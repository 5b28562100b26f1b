//! A connection to a network, from its first byte to the welcome, as one state after the other.

ghost use Rattle.std.specs.Prelude.{◌≡◌, ◌++◌, ◌∷◌, [], ℕ, List, Option, IfErr, IfOk, IsTrue};
ghost use Rattle.irc_names.specs.Nick.{is_nameable};
ghost use Rattle.std.specs.Io.KnownBytes.{Appends, Consumes};
ghost use Rattle.irc_line.specs.Line.{Parts};
ghost use Rattle.irc_line.specs.Lines.{fed, lines_of, start};
ghost use Rattle.bnc_config.specs.Settings.{NetworkSettings};
ghost use Rattle.upstream.specs.Registration.{asked_as, first_lines};
ghost use Rattle.irc_line.specs.Writing.{bytes_of};
ghost use Rattle.upstream.specs.Handshake.{Begins, IsCauseOf, IsSendCause, IsWelcomed, all_sent, sent_for};
ghost use Rattle.upstream.specs.Taken.{HasTaken};
ghost use Rattle.upstream.specs.Dialled.{dialled_stream, live_stream, live_welcomed};
ghost use Rattle.upstream.specs.Dialled.{register_of, registering_stream};

use crate::handshake::{DialFault, Welcomed, complete, open};
use crate::registration::Register;
use bnc_config::NetworkConfig;
use std::alloc::Global;
use std::io::{Read, Write};

/// A stream that reads and writes, by its two ends: of a socket, two handles to it.
#[derive(Drop)]
pub struct Duplex<R, W> {
    /// What the network sends.
    pub reader: R,
    /// What is sent to it.
    pub writer: W,
}

/// A stream to a network: nothing was read of it, and nothing was sent to it.
#[derive(Drop)]
pub struct Dialled<R, W> {
    stream: Duplex<R, W>,
}

/// A stream to a network to which the first lines of a registration were sent.
#[derive(Drop)]
pub struct Registering<R, W> {
    stream: Duplex<R, W>,
    register: Register,
}

/// A stream to a network that has taken us in.
#[derive(Drop)]
pub struct Live<R, W> {
    stream: Duplex<R, W>,
    welcomed: Welcomed,
}

impl<R: Read, W: Write> Dialled<R, W> {
    /// A stream: nothing was read of it, and nothing was sent to it.
    pub fn new(stream: Duplex<R, W>) -> Dialled<R, W>
        ensures { dialled_stream result ≡ stream }
    {
        Dialled { stream }
    }

    /// Sends the first lines of a registration, in one write: `CAP LS 302`, PASS if the settings
    /// have a password, NICK and USER. After a fault, which is `Memory` or `Write`, the stream is
    /// handed back: nothing was read of it, and a beginning of the lines was sent.
    pub fn begin(
        self,
        alloc: Global,
        network: &NetworkConfig,
    ) -> Result<Registering<R, W>, (DialFault, Duplex<R, W>)>
        ensures taken { IfOk result (λ r. HasTaken network.now [] (register_of r)) }
        ensures sent { IfOk result (λ r. Appends (W.contents (dialled_stream self).writer)
            (W.contents (registering_stream r).writer) (bytes_of (first_lines network.now))) }
        ensures unread { IfOk result (λ r.
            (registering_stream r).reader ≡ (dialled_stream self).reader) }
        ensures err { IfErr result (λ x. IsSendCause x.0
            × (x.1.reader ≡ (dialled_stream self).reader)
            × Begins (W.contents (dialled_stream self).writer) (W.contents x.1.writer)
            (bytes_of (first_lines network.now))) }
    {
        self.begin_as(alloc, network, network.nick())
    }

    /// The same of a registration that asks for this nick in place of the settings'.
    pub fn begin_as(
        self,
        alloc: Global,
        network: &NetworkConfig,
        nick: &[u8],
    ) -> Result<Registering<R, W>, (DialFault, Duplex<R, W>)>
        requires { IsTrue (is_nameable nick.now) }
        ensures taken { IfOk result
            (λ r. HasTaken (asked_as network.now nick.now) [] (register_of r)) }
        ensures sent { IfOk result (λ r. Appends (W.contents (dialled_stream self).writer)
            (W.contents (registering_stream r).writer)
            (bytes_of (first_lines (asked_as network.now nick.now)))) }
        ensures unread { IfOk result (λ r.
            (registering_stream r).reader ≡ (dialled_stream self).reader) }
        ensures err { IfErr result (λ x. IsSendCause x.0
            × (x.1.reader ≡ (dialled_stream self).reader)
            × Begins (W.contents (dialled_stream self).writer) (W.contents x.1.writer)
            (bytes_of (first_lines (asked_as network.now nick.now)))) }
    {
        let mut stream = self.stream;
        match open(alloc, &mut stream.writer, network, nick) {
            Ok(register) => Ok(Registering { stream, register }),
            Err(fault) => Err((fault, stream)),
        }
    }
}

impl<R: Read, W: Write> Registering<R, W> {
    /// Goes on to the welcome, as [`register`](crate::register) does: reads lines, and sends for
    /// each what is to be sent for it, in one write. After a fault the stream is handed back: a
    /// beginning of what is to be sent was sent.
    pub fn finish(self, alloc: Global) -> Result<Live<R, W>, (DialFault, Duplex<R, W>)>
        // What `begin` sent, and what is sent here, are the lines of a registration.
        ensures ok { (network : NetworkSettings) (dialled : Option (List ℕ)) →
            HasTaken network [] (register_of self) →
            Appends dialled (W.contents (registering_stream self).writer)
            (bytes_of (first_lines network)) →
            IfOk result (λ l. (bytes : List ℕ) × (before : List Parts) × (welcome : Parts)
            × (after : List Parts)
            × Consumes (R.remaining (registering_stream self).reader)
            (R.remaining (live_stream l).reader) bytes
            × IsWelcomed network (lines_of bytes) before welcome after
            × ((live_welcomed l).lines.items ≡ welcome ∷ after)
            × ((live_welcomed l).splitter ≡ fed start bytes)
            × Appends dialled (W.contents (live_stream l).writer)
            (bytes_of (all_sent network (before ++ welcome ∷ [])))) }
        ensures err { (network : NetworkSettings) → HasTaken network [] (register_of self) →
            IfErr result (λ x. (bytes : List ℕ)
            × Consumes (R.remaining (registering_stream self).reader) (R.remaining x.1.reader) bytes
            × IsCauseOf network bytes x.0
            × Begins (W.contents (registering_stream self).writer) (W.contents x.1.writer)
            (bytes_of (sent_for network [] (lines_of bytes)))) }
    {
        let mut stream = self.stream;
        match complete(alloc, self.register, &mut stream.reader, &mut stream.writer) {
            Ok(welcomed) => Ok(Live { stream, welcomed }),
            Err(fault) => Err((fault, stream)),
        }
    }
}

impl<R: Read, W: Write> Live<R, W> {
    /// The stream, and what was read of it from the welcome on.
    pub fn into_parts(self) -> (Duplex<R, W>, Welcomed)
        ensures stream { result.0 ≡ live_stream self }
        ensures welcomed { result.1 ≡ live_welcomed self }
    {
        (self.stream, self.welcomed)
    }
}
