//! bnc: an IRC bouncer with late attach.
#![tactic(auto)]

ghost use Rattle.std.specs.Prelude.{◌≡◌};
ghost use Rattle.std.specs.Process.{exit_status};

mod control;
mod serve;

use crate::serve::serve_file;
use commands::{
    Command, Fault, WordsFault, attach_file, check_file, explain_caps, explain_words, log_file,
    print_password, read_words, run_attach, run_view, send_control, setup_file, tell_bad_words,
    tell_fault,
};
use journal_files::Disk;
use serving::Publish;
use std::alloc::{AllocError, Global};
use std::fs::File;
use std::io::{ErrorKind, IsTerminal};
use std::net::{Net, TcpListener, TcpStream};
use std::process::ExitCode;
use std::random::RandomSource;
use std::rt::{Clock, Env, Files};
use std::sync::Wait;
use std::thread::Threads;
use std::{env, io};

/// The words after the program's name.
fn words_of<R: AllocGlobal + Env>(rt: &R) -> Result<Vec<String>, WordsFault> {
    match env::args(rt) {
        Ok(words) => Ok(words.skip(1).collect::<Vec<String>>(rt.alloc())?),
        Err(error) if error.kind() == ErrorKind::OutOfMemory => Err(WordsFault::OutOfMemory),
        Err(_) => Err(WordsFault::Bad),
    }
}

/// The words as `read_words` takes them.
fn lent<'a>(alloc: Global, words: &'a [String]) -> Result<Vec<&'a str>, AllocError> {
    let mut lent = Vec::with_capacity(alloc, words.len())?;
    for word in words {
        lent.push(word.as_str())?;
    }
    Ok(lent)
}

/// What the words after the program's name ask for.
fn command_of<R: AllocGlobal + Env>(rt: &R) -> Result<Command, WordsFault> {
    let words = words_of(rt)?;
    let words = lent(rt.alloc(), words.as_slice())?;
    read_words(rt.alloc(), words.as_slice())
}

/// What is wrong with the words after the program's name.
fn explanation_of<R: AllocGlobal + Env>(rt: &R) -> Result<Option<String>, WordsFault> {
    let words = words_of(rt)?;
    let words = lent(rt.alloc(), words.as_slice())?;
    match explain_words(rt.alloc(), words.as_slice())? {
        Some(text) => Ok(Some(text)),
        None => Ok(explain_caps(rt.alloc(), words.as_slice())?),
    }
}

/// Reports a bad command line, and what is wrong with it.
fn refuse_words<R: AllocGlobal + Env + Eprint>(rt: &R) -> ExitCode
    ensures { exit_status result ≡ 2 }
{
    match explanation_of(rt) {
        Ok(Some(text)) => tell_bad_words(rt, Some(text.as_str())),
        _ => tell_bad_words(rt, None),
    }
}

/// Does what the command line asks for. `is_typed`: whether standard input is a terminal.
fn run<
    R: AllocGlobal
        + Files<File = File>
        + Input
        + Print
        + Eprint
        + Clock
        + RandomSource
        + Disk
        + Publish
        + Wait
        + Threads
        + Net<Listener = TcpListener, Stream = TcpStream>
        + Copy
        + Send
        + Sync
        + Drop
        + 'static,
>(rt: R, command: &Command, is_typed: bool) -> Result<(), Fault> {
    match command {
        Command::View => run_view(rt.alloc(), &mut rt.reader(), &mut io::writer(&rt)),
        Command::Attach(caps, history) => run_attach(
            rt.alloc(),
            &mut rt.reader(),
            &mut io::writer(&rt),
            *caps,
            *history,
        ),
        Command::AttachBy(caps, history, path) => {
            attach_file(&rt, path.as_str(), *caps, *history)
        }
        Command::Check(path) => check_file(&rt, path.as_str()),
        Command::Setup(path) => setup_file(&rt, path.as_str(), is_typed),
        Command::Log(path) => log_file(&rt, path.as_str()),
        Command::Password => print_password(&rt),
        Command::Control(control) => send_control(&rt, control),
        Command::Serve(path) => serve_file(rt, path.as_str()),
    }
}

fn main(rt: HostRuntime) -> ExitCode {
    let done = match command_of(&rt) {
        Ok(command) => run(rt, &command, rt.stdin().is_terminal()),
        Err(WordsFault::Help(text)) => print!(rt; "{text}").map_err(|_| Fault::CannotWrite),
        Err(WordsFault::OutOfMemory) => Err(Fault::OutOfMemory),
        Err(WordsFault::Bad) => return refuse_words(&rt),
    };
    match done {
        Ok(()) => ExitCode::SUCCESS,
        Err(fault) => tell_fault(&rt, &fault),
    }
}
