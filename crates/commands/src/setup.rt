//! `bnc setup FILE` and `bnc password`: settings that are made of answers on standard input.

use crate::fault::Fault;
use crate::warning::warn_of_echo;
use bnc_config::Config;
use first_settings::{Interview, Question, Step, password_lines, settings_text};
use std::fs::{File, OpenOptions};
use std::io::{ErrorKind, Write};
use std::os::unix::fs::OpenOptionsExt;
use std::random::RandomSource;
use std::rt::Files;
use std::{fs, io};

/// How many random bytes a salt has.
const SALT: usize = 16;

/// A salt: random bytes of the system.
fn new_salt(rt: &impl RandomSource) -> Result<[u8; SALT], Fault> {
    let mut salt = [0u8; SALT];
    match rt.fill_bytes(&mut salt) {
        Ok(()) => Ok(salt),
        Err(_) => Err(Fault::CannotRead),
    }
}

/// Prints a question as a line, which ends with `?`.
fn ask(rt: &impl Print, question: Question) -> Result<(), Fault> {
    match println!(rt; "{}?", question.text()) {
        Ok(()) => Ok(()),
        Err(_) => Err(Fault::CannotWrite),
    }
}

/// Prints a line that is no question.
fn tell(rt: &impl Print, text: &str) -> Result<(), Fault> {
    match println!(rt; "{text}") {
        Ok(()) => Ok(()),
        Err(_) => Err(Fault::CannotWrite),
    }
}

/// Asks all questions, and reads an answer a line.
fn answered<R: AllocGlobal + Input + Print>(rt: &R) -> Result<Interview, Fault> {
    let mut interview = Interview::new(rt.alloc());
    ask(rt, interview.question())?;
    for line in rt.lines(rt.alloc()) {
        let Ok(line) = line else {
            return Err(Fault::CannotRead);
        };
        let asked = interview.question();
        match interview.answer(rt.alloc(), line.as_str())? {
            Step::Ask(question) => ask(rt, question)?,
            Step::AskAgain(question) => {
                tell(rt, asked.hint())?;
                ask(rt, question)?;
            }
            Step::GiveUp => return Err(Fault::NoAnswer),
            Step::Complete => return Ok(interview),
        }
    }
    Err(Fault::NoAnswer)
}

/// Writes a file that is not there yet, and that only its owner may read.
fn write_new<R: AllocGlobal + Files<File = File>>(
    rt: &R,
    path: &str,
    text: &[u8],
) -> Result<(), Fault> {
    let opened = OpenOptions::new()
        .write(true)
        .create_new(true)
        .mode(0o600)
        .open(rt, path);
    let mut file = match opened {
        Ok(file) => file,
        Err(error) if error.kind() == ErrorKind::AlreadyExists => {
            return Err(Fault::Exists(String::from_str(rt.alloc(), path)?));
        }
        Err(error) => return Err(Fault::of_file(rt.alloc(), path, &error)),
    };
    match file.write_all(text) {
        Ok(()) => Ok(()),
        Err(_) => Err(Fault::CannotWrite),
    }
}

/// Prints what to type next, for a settings file and a user's name.
fn tell_next<R: AllocGlobal + Print>(rt: &R, path: &str, user: &str) -> Result<(), Fault> {
    let text = format!(in rt.alloc();
        "wrote {path}
to control it:  mkfifo -m 600 {path}.control
to start it:    bnc serve {path}
irssi:          /connect 127.0.0.1 6667 {user}@irssi/net:PASSWORD
WeeChat:        /server add net 127.0.0.1/6667 -notls -password={user}@weechat/net:PASSWORD
HexChat:        the server 127.0.0.1/6667, and the server password {user}@hexchat/net:PASSWORD"
    )?;
    tell(rt, text.as_str())
}

/// Asks for a network's address, a nick, channels and a password, writes the settings file at a path
/// of them, which only its owner may read, and prints what to type next. A bad answer is asked for
/// again, three times in succession. If a file is there, if the input ends, or after the fourth bad
/// answer, nothing is written. If the answers are typed at a terminal, standard error first warns that
/// the password can be seen.
pub fn setup_file<R: AllocGlobal + Files<File = File> + Input + Print + Eprint + RandomSource>(
    rt: &R,
    path: &str,
    is_typed: bool,
) -> Result<(), Fault> {
    if fs::metadata(rt, path).is_ok() {
        return Err(Fault::Exists(String::from_str(rt.alloc(), path)?));
    }
    if is_typed {
        warn_of_echo(rt);
    }
    let interview = answered(rt)?;
    let salt = new_salt(rt)?;
    let text = settings_text(rt.alloc(), interview.answers(), salt.as_slice())?;
    if let Err(fault) = Config::read(rt.alloc(), text.as_slice()) {
        return Err(Fault::Settings(fault));
    }
    write_new(rt, path, text.as_slice())?;
    tell_next(
        rt,
        path,
        str::from_utf8(interview.answers().nick()).unwrap_or("USER"),
    )
}

/// Reads a password, a line on standard input, and prints its two lines for a settings file. An
/// empty line, or none, is no password.
pub fn print_password<R: AllocGlobal + Input + Print + RandomSource>(rt: &R) -> Result<(), Fault> {
    ask(rt, Question::Password)?;
    let Some(line) = rt.lines(rt.alloc()).next() else {
        return Err(Fault::NoAnswer);
    };
    let Ok(password) = line else {
        return Err(Fault::CannotRead);
    };
    if password.is_empty() {
        return Err(Fault::NoAnswer);
    }
    let salt = new_salt(rt)?;
    let lines = password_lines(rt.alloc(), salt.as_slice(), password.as_bytes())?;
    match io::writer(rt).write_all(lines.as_slice()) {
        Ok(()) => Ok(()),
        Err(_) => Err(Fault::CannotWrite),
    }
}
