//! Connections watched by the system, by socket options that std does not offer; sockets that are
//! woken and files that are waited for; and descriptors that nobody may have by accident.
//!
//! This is the one crate with `unsafe`: each call of the C library in it names its option and hands
//! over a buffer of its own, and the statements of the kit's `libc` ask for no more.
#![tactic(auto)]

use libc::net as c;
use std::fs::{File, OpenOptions};
use std::io;
use std::net::{TcpListener, TcpStream};
use std::os::fd::{AsRawFd, IntoRawFd};
use std::rt::Files;
use std::time::Duration;

/// What the system is asked to find out about an idle connection.
#[derive(Clone, Copy, Debug, PartialEq, Eq)]
pub struct Watch {
    /// After how many silent seconds the peer is tested (TCP_KEEPIDLE): 1 to 32767.
    pub idle: u16,
    /// After how many milliseconds without an answer to what was sent the connection is ended
    /// (TCP_USER_TIMEOUT; RFC 5482). If nothing was sent since the first test, it is ended at
    /// the first further test past that time: the system tests every 75 seconds, if its own setting
    /// was not changed (TCP_KEEPINTVL).
    pub limit: u32,
}

/// What a call of the C library answered: an error if it is below 0.
fn check(status: i32) -> io::Result<()> {
    if status < 0 {
        Err(io::Error::from_raw_os_error(os::errno()))
    } else {
        Ok(())
    }
}

/// A number as the value of an option: an `int` in the machine's order.
fn value_of(number: u32) -> [u8; 16] {
    let mut value = [0u8; 16];
    value[..4].copy_from_slice(&number.to_ne_bytes());
    value
}

/// The number that a value of an option is.
fn number_of(value: &[u8; 16]) -> u32 {
    u32::from_ne_bytes([value[0], value[1], value[2], value[3]])
}

/// Has the system watch a connection: it tests a peer that is silent (SO_KEEPALIVE; RFC 1122,
/// section 4.2.3.6), and ends the connection if no answer comes. Reads and writes then fail. No
/// byte of the stream is sent for it.
pub fn keep_watch(stream: &TcpStream, how: Watch) -> io::Result<()> {
    let fd = stream.as_raw_fd();
    let on = value_of(1);
    let idle = value_of(u32::from(how.idle));
    let limit = value_of(how.limit);
    check(unsafe { c::setsockopt(fd, c::SOL_SOCKET, c::SO_KEEPALIVE, &on, 4) })?;
    check(unsafe { c::setsockopt(fd, c::IPPROTO_TCP, c::TCP_KEEPIDLE, &idle, 4) })?;
    check(unsafe { c::setsockopt(fd, c::IPPROTO_TCP, c::TCP_USER_TIMEOUT, &limit, 4) })
}

/// How the system watches a connection; `None` if it does not.
pub fn watch_on(stream: &TcpStream) -> io::Result<Option<Watch>> {
    let fd = stream.as_raw_fd();
    let mut on = value_of(0);
    let mut idle = value_of(0);
    let mut limit = value_of(0);
    let mut len = 4u32;
    check(unsafe { c::getsockopt(fd, c::SOL_SOCKET, c::SO_KEEPALIVE, &mut on, &mut len) })?;
    let mut len = 4u32;
    check(unsafe { c::getsockopt(fd, c::IPPROTO_TCP, c::TCP_KEEPIDLE, &mut idle, &mut len) })?;
    let mut len = 4u32;
    check(unsafe {
        c::getsockopt(
            fd,
            c::IPPROTO_TCP,
            c::TCP_USER_TIMEOUT,
            &mut limit,
            &mut len,
        )
    })?;
    if number_of(&on) == 0 {
        return Ok(None);
    }
    Ok(Some(Watch {
        idle: u16::try_from(number_of(&idle)).unwrap_or(u16::MAX),
        limit: number_of(&limit),
    }))
}

/// Shuts a listening socket: `accept`, also one that waits, then fails. It takes no descriptor.
pub fn shut_listener(listener: &TcpListener) -> io::Result<()> {
    check(c::shutdown(listener.as_raw_fd(), c::SHUT_RD))
}

/// Waits until a file can be read or is at its end, at most for this time; whether it can. Also
/// if the wait fails, so that the read that follows says why.
pub fn is_readable(file: &File, time: Duration) -> bool {
    let timeout = i32::try_from(time.as_millis()).unwrap_or(i32::MAX);
    let mut files = [libc::types::pollfd {
        fd: file.as_raw_fd(),
        events: c::POLLIN,
        revents: 0,
    }];
    c::poll(&mut files, timeout) != 0
}

/// Whether a pipe or FIFO that is open for writing takes 4,096 bytes (PIPE_BUF) at once, so that a write of
/// no more does not wait.
pub fn has_room(file: &File) -> bool {
    let mut files = [libc::types::pollfd {
        fd: file.as_raw_fd(),
        events: c::POLLOUT,
        revents: 0,
    }];
    c::poll(&mut files, 0) > 0
}

/// The user whose rights the program has.
pub fn user_id() -> u32 {
    libc::geteuid()
}

/// Opens `/dev/null` as standard input, output and error, each that is closed: so no file or socket
/// that is opened later gets its number, and what is written to it reaches nobody. It is for the
/// start of a program, before anything else is opened. A system without `/dev/null` will do if all
/// three are open.
pub fn fill_standard<R: Files<File = File>>(rt: &R) -> io::Result<()> {
    for _ in libc::STDIN_FILENO..=libc::STDERR_FILENO {
        let opened = OpenOptions::new()
            .read(true)
            .write(true)
            .open(rt, "/dev/null");
        let file = match opened {
            Ok(file) => file,
            Err(error) => return are_open(rt, error),
        };
        if file.as_raw_fd() > libc::STDERR_FILENO {
            return Ok(());
        }
        let _ = file.into_raw_fd();
    }
    Ok(())
}

/// Whether standard input, output and error are open, so that what is opened now gets a higher number;
/// else this error.
fn are_open<R: Files<File = File>>(rt: &R, error: io::Error) -> io::Result<()> {
    let root = OpenOptions::new().read(true).open(rt, "/")?;
    if root.as_raw_fd() > libc::STDERR_FILENO {
        return Ok(());
    }
    Err(error)
}
