//! The command line.

ghost use Rattle.std.specs.Prelude.{◌≡◌, ◌≢◌, ℕ, IfErr, IfNone, IfOk, IfSome, Some, codes};
ghost use Rattle.std.specs.Prelude.{map, option_map, string_bytes};
ghost use Rattle.clap.specs.Words.{first_of, found_of, kind_of, rows_of};
ghost use Rattle.clap.specs.declared.error.kind.ErrorKind.TheVariants as kind;
ghost use Rattle.client_caps.specs.Caps.{no_caps};
ghost use Rattle.client_caps.specs.Request.{request_of};
ghost use Rattle.commands.specs.Command.{AsksFor, IsAsked, IsAttach, IsCauseOf, IsCommandCause};
ghost use Rattle.commands.specs.Command.{IsCommandOf, IsExplained, IsHistory, IsOfKind};
ghost use Rattle.commands.specs.Command.{IsOptionsCause, IsTextCause, space_for_comma, spaced};

use crate::arguments::grammar;
use clap::ArgMatches;
use clap::error::ErrorKind;
use client_caps::{Caps, read_request};
use history::CAPACITY_LIMIT;
use std::alloc::{AllocError, AllocFailed, Global};
use thiserror::Error;

/// What the words after the program's name ask for.
#[derive(Debug, Drop)]
pub enum Command {
    /// `view`: to report what the standard input, a network's lines, says of the network.
    View,
    /// `attach [--caps LIST] [--history N]`: to write what a client with these capabilities gets that
    /// attaches after the standard input, a network's lines, with the last N messages.
    Attach(Caps, usize),
    /// `attach --profile FILE [--caps LIST] [--history N]`: the same by the tables `[messages]` and
    /// `[playback]` of a settings file.
    AttachBy(Caps, usize, String),
    /// `check FILE`: to check a settings file.
    Check(String),
    /// `serve FILE`: to serve the clients of its users.
    Serve(String),
    /// `setup FILE`: to ask what a settings file needs, and to write it.
    Setup(String),
    /// `log FILE`: to print the messages of a journal.
    Log(String),
    /// `password`: to print a user's lines of a password.
    Password,
    /// `control FILE WORD [NETWORK [NAME]]`: to control the program that serves a settings file.
    Control(Control),
}

/// What `control` asks for: the settings file, and the words of the line for the program.
#[derive(Debug, Drop)]
pub struct Control {
    /// The settings file.
    pub file: String,
    /// What the program is to do, as `reload`.
    pub word: String,
    /// The network that it is about, `USER/NETWORK`.
    pub network: Option<String>,
    /// The client name that it is about.
    pub name: Option<String>,
}

/// Why the words ask for nothing.
#[derive(Debug, Drop, Error)]
pub enum WordsFault {
    /// They are not of the command line's grammar.
    #[error("bad command line")]
    Bad,
    /// They ask for help or the version, which is this text.
    #[error("{0}")]
    Help(String),
    /// An allocation was refused.
    #[error("out of memory")]
    OutOfMemory,
}

impl From<AllocError> for WordsFault {
    ghost use Rattle.std.specs.Prelude.{◌≡◌};
    ghost use Rattle.commands.specs.declared.words.WordsFault.TheVariants as told;

    ghost from_gives = { λ _ fault. fault ≡ told.OutOfMemory };

    fn from(_refused: AllocError) -> WordsFault {
        WordsFault::OutOfMemory
    }
}

impl<T: Drop> From<AllocFailed<T>> for WordsFault {
    ghost use Rattle.std.specs.Prelude.{◌≡◌};
    ghost use Rattle.commands.specs.declared.words.WordsFault.TheVariants as told;

    ghost from_gives = { λ _ fault. fault ≡ told.OutOfMemory };

    fn from(_refused: AllocFailed<T>) -> WordsFault {
        WordsFault::OutOfMemory
    }
}

/// What an error of `clap` is reported as.
fn fault_of(alloc: Global, error: &clap::Error) -> WordsFault
    ensures { IsOfKind (kind_of error.now) result }
{
    match error.kind() {
        ErrorKind::OutOfMemory => WordsFault::OutOfMemory,
        ErrorKind::DisplayHelp | ErrorKind::DisplayVersion => match format!(in alloc; "{error}") {
            Ok(text) => WordsFault::Help(text),
            Err(_) => WordsFault::OutOfMemory,
        },
        _ => WordsFault::Bad,
    }
}

/// A space in place of a comma.
fn space_for_comma(byte: u8) -> u8
    ensures { result ≡ space_for_comma byte }
{
    match byte {
        b',' => b' ',
        _ => byte,
    }
}

/// The capabilities of a list of names with commas between; `None` if a name is of none.
fn caps_in(alloc: Global, list: &str) -> Result<Option<Caps>, AllocError>
    ensures { IfOk result (λ caps. caps ≡ request_of no_caps (spaced list.now)) }
{
    let bytes = list.as_bytes();
    let words: Vec<u8> = bytes
        .iter()
        .map(|byte| space_for_comma(*byte))
        .collect(alloc)?;
    Ok(read_request(Caps::none(), &words))
}

/// The number of messages that a text asks for, 1 to 10,000 in decimal digits.
fn history_in(text: &str) -> Option<usize>
    ensures some { IfSome result (IsHistory text.now) }
    ensures none { IfNone result ((n : ℕ) → IsHistory text.now n → ⊥) }
{
    match text.parse::<usize>() {
        Ok(count) if 1 <= count && count <= CAPACITY_LIMIT => Some(count),
        _ => None,
    }
}

/// The capabilities and the number of messages that the options of `attach` ask for.
fn read_options<'a>(alloc: Global, matches: &ArgMatches<'a>) -> Result<(Caps, usize), WordsFault>
    ensures read { IfOk result (λ asked.
        IsAttach (rows_of (found_of matches.now)) asked.0 asked.1) }
    ensures refused { IfErr result (IsOptionsCause (rows_of (found_of matches.now))) }
{
    let Some(list) = matches.get_str("caps") else {
        return Err(WordsFault::Bad);
    };
    let Some(text) = matches.get_str("history") else {
        return Err(WordsFault::Bad);
    };
    let Some(history) = history_in(text) else {
        return Err(WordsFault::Bad);
    };
    match caps_in(alloc, list)? {
        Some(caps) => Ok((caps, history)),
        None => Err(WordsFault::Bad),
    }
}

/// The text of an argument that has to be there.
fn text_of<'a>(alloc: Global, matches: &ArgMatches<'a>, id: &str) -> Result<String, WordsFault>
    ensures read { IfOk result (λ text.
        first_of id.now (rows_of (found_of matches.now)) ≡ Some (string_bytes text)) }
    ensures refused { IfErr result (IsTextCause (first_of id.now (rows_of (found_of matches.now)))) }
{
    match matches.get_str(id) {
        Some(text) => Ok(String::from_str(alloc, text)?),
        None => Err(WordsFault::Bad),
    }
}

/// The text of an argument that may be left out.
fn optional_text_of<'a>(
    alloc: Global,
    matches: &ArgMatches<'a>,
    id: &str,
) -> Result<Option<String>, WordsFault>
    ensures read { IfOk result (λ text.
        first_of id.now (rows_of (found_of matches.now)) ≡ option_map string_bytes text) }
    ensures refused { IfErr result (λ fault. fault ≡ WordsFault.OutOfMemory) }
{
    match matches.get_str(id) {
        Some(text) => Ok(Some(String::from_str(alloc, text)?)),
        None => Ok(None),
    }
}

/// What `attach` asks for with these options.
fn read_attach<'a>(alloc: Global, matches: &ArgMatches<'a>) -> Result<Command, WordsFault>
    ensures read { IfOk result (IsCommandOf (codes "attach") (rows_of (found_of matches.now))) }
    ensures refused { IfErr result (IsCommandCause (codes "attach")
        (rows_of (found_of matches.now))) }
{
    let (caps, history) = read_options(alloc, matches)?;
    match optional_text_of(alloc, matches, "profile")? {
        Some(file) => Ok(Command::AttachBy(caps, history, file)),
        None => Ok(Command::Attach(caps, history)),
    }
}

/// What `control` asks for with these arguments.
fn read_control<'a>(alloc: Global, matches: &ArgMatches<'a>) -> Result<Command, WordsFault>
    ensures read { IfOk result (IsCommandOf (codes "control") (rows_of (found_of matches.now))) }
    ensures refused { IfErr result (IsCommandCause (codes "control")
        (rows_of (found_of matches.now))) }
{
    Ok(Command::Control(Control {
        file: text_of(alloc, matches, "file")?,
        word: text_of(alloc, matches, "word")?,
        network: optional_text_of(alloc, matches, "network")?,
        name: optional_text_of(alloc, matches, "name")?,
    }))
}

/// What the command of this name asks for with these arguments.
fn read_command<'a>(
    alloc: Global,
    name: &str,
    matches: &ArgMatches<'a>,
) -> Result<Command, WordsFault>
    ensures read { IfOk result (IsCommandOf name.now (rows_of (found_of matches.now))) }
    ensures refused { IfErr result (IsCommandCause name.now (rows_of (found_of matches.now))) }
{
    match name {
        "view" => Ok(Command::View),
        "attach" => read_attach(alloc, matches),
        "check" => Ok(Command::Check(text_of(alloc, matches, "file")?)),
        "serve" => Ok(Command::Serve(text_of(alloc, matches, "file")?)),
        "setup" => Ok(Command::Setup(text_of(alloc, matches, "file")?)),
        "log" => Ok(Command::Log(text_of(alloc, matches, "file")?)),
        "password" => Ok(Command::Password),
        "control" => read_control(alloc, matches),
        _ => Err(WordsFault::Bad),
    }
}

/// Reads the words after the program's name.
pub fn read_words<'a>(alloc: Global, words: &'a [&'a str]) -> Result<Command, WordsFault>
    ensures read { IfOk result (AsksFor (map (λ word. word.now) words.now)) }
    ensures refused { IfErr result (IsCauseOf (map (λ word. word.now) words.now)) }
{
    let matches = match grammar(alloc)?.try_get_matches_from(words) {
        Ok(matches) => matches,
        Err(error) => return Err(fault_of(alloc, &error)),
    };
    match matches.subcommand() {
        Some((name, inner)) => read_command(alloc, name, inner),
        None => Err(WordsFault::Bad),
    }
}

/// The text before the first empty line.
fn first_paragraph(text: &str) -> &str {
    match text.split_once("\n\n") {
        Some((first, _)) => first,
        None => text,
    }
}

/// What is wrong with words for which `clap` gives this error; `None` if they ask for help or the
/// version.
fn explained(alloc: Global, error: &clap::Error) -> Result<Option<String>, AllocError>
    ensures text { IfOk result (λ text. IfNone text (IsAsked (kind_of error.now))) }
    ensures fault { IfOk result (λ text. IfSome text (λ _.
        (IsAsked (kind_of error.now) → ⊥) × (kind_of error.now ≢ kind.OutOfMemory))) }
{
    match error.kind() {
        ErrorKind::OutOfMemory => Err(AllocError),
        ErrorKind::DisplayHelp | ErrorKind::DisplayVersion => Ok(None),
        _ => {
            let text = format!(in alloc; "{error}")?;
            Ok(Some(String::from_str(alloc, first_paragraph(text.as_str()))?))
        }
    }
}

/// What is wrong with words that are not of the command line's grammar: the first paragraph of what
/// `clap` has to say of them, as `error: unrecognized subcommand 'chek'`. `None` if they ask for
/// a command, for help or for the version.
pub fn explain_words<'a>(alloc: Global, words: &'a [&'a str]) -> Result<Option<String>, AllocError>
    ensures { IfOk result (IsExplained (map (λ word. word.now) words.now)) }
{
    match grammar(alloc)?.try_get_matches_from(words) {
        Ok(_) => Ok(None),
        Err(error) => explained(alloc, &error),
    }
}
