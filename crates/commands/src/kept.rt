//! What is kept on the disk: `bnc log FILE` prints the messages of a journal, and `bnc check` says
//! what it finds in each.

ghost use Rattle.std.specs.Prelude.{◌≡◌, ◌-◌, IfErr, IfOk, List, OnOk, length, ℕ};
ghost use Rattle.std.specs.Io.KnownBytes.{Appends};
ghost use Rattle.commands.specs.Log.{IsCauseOf, IsLogOf, IsNoJournal, IsRecalledOf};

use crate::check::settings_text;
use crate::fault::Fault;
use bnc_config::Config;
use history::CAPACITY_LIMIT;
use journal::{RecallError, Recalled, messages_text, recall};
use std::alloc::{AllocError, Global};
use std::io::{ErrorKind, Write};
use std::rt::Files;
use std::{fs, io};

/// What is recalled of a journal, with all messages that a history can hold.
pub fn recalled(alloc: Global, bytes: &[u8]) -> Result<Recalled, Fault>
    ensures recalled { IfOk result (IsRecalledOf bytes.now) }
    ensures refused { IfErr result (IsNoJournal bytes.now) }
{
    match recall(alloc, CAPACITY_LIMIT, 0, bytes) {
        Ok(recalled) => Ok(recalled),
        Err(RecallError::NotAJournal) => Err(Fault::NotAJournal),
        Err(RecallError::LaterVersion) => Err(Fault::LaterVersion),
        Err(RecallError::OutOfMemory | RecallError::BadCapacity) => Err(Fault::OutOfMemory),
    }
}

/// How many bytes at the end of a journal count for nothing.
pub fn damaged(recalled: &Recalled, bytes: &[u8]) -> usize
    ensures { result ≡ length bytes.now - recalled.now.used }
{
    bytes.len().saturating_sub(recalled.used)
}

/// Writes the messages of a journal, each on a line: its time, its target, its source and its text.
/// If bytes at the end count for nothing, it says so after the messages.
#[tactic(auto, using(crate::proofs::LogLemmas::no_journal))]
pub fn run_log<W: Write>(alloc: Global, bytes: &[u8], out: &mut W) -> Result<(), Fault>
    ensures written { OnOk result ((text : List ℕ)
        × Appends (W.contents out.old) (W.contents out.new) text × IsLogOf bytes.now text 0) }
    ensures refused { IfErr result
        (IsCauseOf bytes.now (W.contents out.old) (W.contents out.new)) }
{
    let recalled = recalled(alloc, bytes)?;
    let text = messages_text(alloc, &recalled.kept.history)?;
    let count = damaged(&recalled, bytes);
    match out.write_all(text.as_slice()) {
        Ok(()) if count == 0 => Ok(()),
        Ok(()) => Err(Fault::Damaged(count)),
        Err(_) => Err(Fault::CannotWrite),
    }
}

/// Prints the messages of the journal at a path on standard output.
pub fn log_file<R: AllocGlobal + Files + Print>(rt: &R, path: &str) -> Result<(), Fault> {
    let bytes = settings_text(rt, path)?;
    run_log(rt.alloc(), bytes.as_slice(), &mut io::writer(rt))
}

/// The folder of `kept`, which is relative to that of the settings file.
fn kept_folder(alloc: Global, settings: &str, kept: &str) -> Result<String, AllocError> {
    match settings.rsplit_once('/') {
        Some((folder, _)) if !kept.starts_with('/') => format!(in alloc; "{folder}/{kept}"),
        _ => String::from_str(alloc, kept),
    }
}

/// What is in the journal at a path, as `messages 120 names 2 damaged 0`, or why it is not read.
fn found_at<R: AllocGlobal + Files>(rt: &R, path: &str) -> Result<String, Fault> {
    let alloc = rt.alloc();
    let bytes = match fs::read(rt, path) {
        Ok(bytes) => bytes,
        Err(e) if e.kind() == ErrorKind::NotFound => return Ok(String::from_str(alloc, "no file")?),
        Err(e) => return Ok(format!(in alloc; "cannot read: {e}")?),
    };
    match recalled(alloc, bytes.as_slice()) {
        Ok(found) => {
            let (messages, names) = (found.kept.history.len(), found.kept.marks.count());
            let damaged = damaged(&found, bytes.as_slice());
            Ok(format!(in alloc; "messages {messages} names {names} damaged {damaged}")?)
        }
        Err(Fault::OutOfMemory) => Err(Fault::OutOfMemory),
        Err(fault) => Ok(format!(in alloc; "{fault}")?),
    }
}

/// Prints a line for each network, `journal USER/NETWORK` and what is in its file, if the
/// settings have a folder for them. Nothing is locked, and nothing is changed.
pub fn report_kept<R: AllocGlobal + Files + Print>(
    rt: &R,
    settings: &str,
    config: &Config,
) -> Result<(), Fault> {
    let Some(kept) = config.kept() else {
        return Ok(());
    };
    let folder = kept_folder(rt.alloc(), settings, kept)?;
    for user in config.users() {
        let name = str::from_utf8(user.name()).unwrap_or("");
        for network in user.networks() {
            let network = str::from_utf8(network.name()).unwrap_or("");
            let path = format!(in rt.alloc(); "{folder}/{name}@{network}")?;
            let found = found_at(rt, path.as_str())?;
            if println!(rt; "journal {name}/{network} {found}").is_err() {
                return Err(Fault::CannotWrite);
            }
        }
    }
    Ok(())
}
