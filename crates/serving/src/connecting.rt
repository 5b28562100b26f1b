//! The thread that dials a network and serves each connection to it.

ghost use Rattle.std.specs.Prelude.{IsTrue};
ghost use Rattle.irc_names.specs.Nick.{is_nameable};

use crate::clock::SystemClock;
use crate::closing::HangingUp;
use crate::connection::{Connection, Farewell};
use crate::dialling::{Dialling, Next};
use crate::host::Host;
use crate::journaling::write_last;
use crate::keeping::{Input, Keeping, ending_of};
use crate::last_words::LastWords;
use crate::link::Link;
use crate::network_event::{Ending, GivenUp, NetworkEvent};
use crate::network_input::NetworkInput;
use crate::network_output::NetworkOutput;
use crate::nick_asked::{is_nick_refused, nick_asked};
use crate::opening::{Opened, Opening};
use crate::reaching::connect;
use crate::roster::Roster;
use crate::saying_again::holder_of_nick;
use bnc_config::NetworkConfig;
use hub_threads::{OutletEnd, Worker};
use shell::Recalling;
use std::alloc::Global;
use std::io;
use std::io::Write;
use std::net::{Net, TcpListener, TcpStream};
use std::random::RandomSource;
use std::rt::Clock;
use std::sync::{Arc, Wait};
use std::time::Duration;
use upstream::{DialFault, Duplex, NetworkEnd, RegisterFault, serve_network_as};

/// A random number, by which a rest after a failed dial is longer; 0 if none can be drawn.
fn chance<R: RandomSource>(rt: &R) -> u64 {
    let mut bytes = [0u8; 8];
    match rt.fill_bytes(&mut bytes) {
        Ok(()) => u64::from_le_bytes(bytes),
        Err(_) => 0,
    }
}

/// Writes what waits for a network and then QUIT, if it takes them in this time, and shuts the
/// connection.
fn part_with(connection: &Connection, farewell: Farewell, outlet: &mut OutletEnd, time: Duration) {
    let mut stream = connection.stream();
    let _ = stream.set_write_timeout(Some(time));
    for _ in 0..u64::MAX {
        let Some(packet) = outlet.take() else {
            return connection.say_last("QUIT", farewell, time);
        };
        if stream.write_all(packet.bytes()).is_err() {
            return connection.hang_up();
        }
    }
}

/// Connects to a network.
fn come_in<'s, R: Wait + Clock + Net<Listener = TcpListener, Stream = TcpStream>>(
    dialling: &Dialling<'_, R>,
    settings: &'s NetworkConfig,
) -> Result<Connection, Ending<'s>> {
    let address = settings.address();
    match connect(dialling, address) {
        Ok(stream) => match Connection::new(dialling.alloc, stream) {
            Ok(connection) => Ok(connection),
            Err(_) => Err(Ending::GivenUp(GivenUp::NoMemory)),
        },
        Err(error) => {
            if dialling.is_awaited() {
                Err(Ending::CannotConnect { address, error })
            } else {
                Err(Ending::GivenUp(GivenUp::Outdated))
            }
        }
    }
}

/// What a connection to a network is served with: its two ends, and the gate that shuts it when
/// nothing more can be written.
fn ends_of<'a, R: Wait + Clock + Copy>(
    dialling: Dialling<'a, R>,
    settings: &'a NetworkConfig,
    connection: &'a Connection,
    opening: &Opening,
) -> io::Result<(Duplex<Input<'a, R>, NetworkOutput<R>>, HangingUp)> {
    let Dialling {
        rt,
        alloc,
        shared,
        ..
    } = dialling;
    let journals = Arc::try_clone(shared.journals())?;
    let gate = HangingUp::on(connection.share()?).with_journals(journals);
    let wire = Opened {
        dialling,
        settings,
        connection,
        opening: opening.share()?,
        limit: None,
    };
    let input = NetworkInput::start(rt, wire, shared.limits().registration)?;
    let reader = Recalling::new(alloc, input);
    let writer = NetworkOutput {
        rt: *rt,
        connection: connection.share()?,
    };
    Ok((Duplex { reader, writer }, gate))
}

/// The text of the last line by which the network refused what this end is about.
fn refusal_of<R: Wait + Clock>(
    end: &NetworkEnd,
    reader: &Input<'_, R>,
    settings: &NetworkConfig,
    alloc: Global,
) -> Option<Vec<u8>> {
    if is_nick_refused(end, settings) {
        if let Ok(Some(text)) = reader.no_nick(alloc) {
            return Some(text);
        }
    }
    let failed = matches!(
        end,
        NetworkEnd::NotRegistered(DialFault::Register(RegisterFault::SaslFailed))
    );
    if failed {
        if let Ok(Some(text)) = reader.no_login(alloc) {
            return Some(text);
        }
    }
    reader.no_entry(alloc).unwrap_or(None)
}

/// The password of the account by which we log in to a network.
fn account_password(settings: &NetworkConfig) -> Option<&[u8]> {
    let (_, password) = settings.sasl()?.account()?;
    Some(password)
}

/// What the network said last about why a connection ended, except what has a password of ours in it.
fn last_words<R: Wait + Clock>(
    end: &NetworkEnd,
    reader: &Input<'_, R>,
    settings: &NetworkConfig,
    alloc: Global,
) -> LastWords {
    let said = LastWords {
        refusal: refusal_of(end, reader, settings, alloc),
        error: reader.parting(alloc).unwrap_or(None),
    };
    said.without(account_password(settings))
        .without(settings.password())
}

/// How a connection ended whose registration asked for this nick. If the network refused the nick,
/// the next registration asks for another one.
fn ending_under<'a, R: Wait + Clock>(
    keeping: &Keeping<'a, R>,
    end: NetworkEnd,
    said: LastWords,
    nick: Vec<u8>,
) -> Ending<'static> {
    let Dialling { rt, station, .. } = keeping.dialling;
    let is_refused = is_nick_refused(&end, keeping.settings);
    if is_refused {
        station.nick_tries().lock(rt).refused();
    }
    match ending_of(end, said, keeping.connection, keeping.given_up) {
        Ending::NotRegistered { fault, said } if is_refused => Ending::NoNick { nick, fault, said },
        ending => ending,
    }
}

/// Ends a connection that was served, whose registration asked for this nick: a last line that is due
/// is sent, and the connection is shut. Answers the link, and how the connection ended.
fn end_of<'a, R: Host>(
    keeping: &Keeping<'a, R>,
    served: upstream::Served<Input<'a, R>, NetworkOutput<R>>,
    nick: Vec<u8>,
) -> (Link, Ending<'static>) {
    let Dialling { alloc, shared, .. } = keeping.dialling;
    let upstream::Served {
        end,
        mut link,
        stream,
        written,
    } = served;
    let farewell = keeping.connection.farewell();
    let said = last_words(&end, &stream.reader, keeping.settings, alloc);
    let ending = ending_under(keeping, end, said, nick);
    if let (Some(farewell), true) = (farewell, written.is_ok()) {
        let time = shared.limits().stop;
        part_with(keeping.connection, farewell, &mut link.outlet, time);
    }
    keeping.connection.hang_up();
    (link, ending)
}

/// Serves a connection that registers under this nick, to its end. Answers the link, and how the
/// connection ended.
fn serve<'a, R: Host>(
    dialling: Dialling<'a, R>,
    settings: &'a NetworkConfig,
    connection: &'a Connection,
    nick: Vec<u8>,
    link: Link,
) -> (Link, Ending<'static>)
    requires { IsTrue (is_nameable nick.items) }
{
    let Dialling { rt, alloc, .. } = dialling;
    let Ok(opening) = Opening::new(alloc) else {
        return (link, Ending::GivenUp(GivenUp::NoMemory));
    };
    let Ok((stream, gate)) = ends_of(dialling, settings, connection, &opening) else {
        return (link, Ending::GivenUp(GivenUp::NoMemory));
    };
    let mut keeping = Keeping {
        dialling,
        settings,
        connection,
        opening,
        holder: holder_of_nick(&dialling, settings),
        given_up: GivenUp::Outdated,
    };
    let clock = SystemClock::of(rt);
    let worker = Worker {
        rt: *rt,
        alloc,
        gate: &gate,
        clock: &clock,
    };
    let served = serve_network_as(&worker, stream, settings, &nick, link, &mut keeping);
    end_of(&keeping, served, nick)
}

/// Registers over a connection, if that is still wanted, and serves it to its end.
fn register_and_serve<'a, R: Host>(
    dialling: Dialling<'a, R>,
    settings: &'a NetworkConfig,
    connection: &'a Connection,
    link: Link,
) -> (Link, Ending<'static>) {
    if !dialling.registers(settings, connection) {
        connection.hang_up();
        return (link, Ending::GivenUp(GivenUp::Outdated));
    }
    match nick_asked(&dialling, settings, chance(dialling.rt)) {
        Ok(nick) => serve(dialling, settings, connection, nick, link),
        Err(_) => {
            connection.hang_up();
            (link, Ending::GivenUp(GivenUp::NoMemory))
        }
    }
}

/// Dials once, and serves the connection to its end.
fn dial<R: Host + Net<Listener = TcpListener, Stream = TcpStream>>(
    dialling: &Dialling<'_, R>,
    roster: &Roster,
    link: Link,
) -> Link {
    let settings = roster.settings_of(dialling.station.who());
    let (Some(settings), true) = (settings, dialling.station.slot().is_ready(dialling.rt)) else {
        // the network was begun anew meanwhile
        let _ = dialling.lose(0);
        return link;
    };
    let mut link = link;
    link.drop_unsent();
    dialling.shared.metrics().note_dial();
    let (link, ending) = match come_in(dialling, settings) {
        Ok(connection) => register_and_serve(*dialling, settings, &connection, link),
        Err(ending) => (link, ending),
    };
    let again = dialling.lose(chance(dialling.rt));
    dialling.tell_ending(&ending, again);
    link
}

/// Dials a network whenever it may be dialled, as often as the limits say, and serves each
/// connection to its end, until the service ends or the network is left. What waited for a lost
/// connection is dropped. A network that was begun anew is dialled with its own link.
pub(crate) fn stay_connected<R: Host + Net<Listener = TcpListener, Stream = TcpStream>>(
    dialling: &Dialling<'_, R>,
    link: Link,
) {
    let Dialling {
        rt,
        shared,
        station,
        ..
    } = dialling;
    let mut link = link;
    let mut dials = 0u64;
    for _ in rt.forever() {
        if shared.limits().dials.are_over(dials) {
            break;
        }
        link = station.slot().link_of_now(*rt, link);
        match dialling.next() {
            Next::Dial(roster) => {
                dials = dials.saturating_add(1);
                link = dial(dialling, &roster, link);
            }
            Next::Rest(time) => station.rest(*rt, time),
            Next::End => {
                write_last(*rt, dialling.alloc, shared, station);
                station.slot().close(*rt);
                break;
            }
        }
    }
    shared.dials_no_more();
}
