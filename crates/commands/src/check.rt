//! `bnc check FILE`: reads a settings file, and prints how many users and networks it has.

ghost use Rattle.std.specs.Prelude.{◌≡◌, ◌≢◌, ◌^◌, ◌<◌, IfErr, OnOk};
ghost use Rattle.std.specs.Io.KnownBytes.{Appends};
ghost use Rattle.bnc_config.specs.Document.{Means};
ghost use Rattle.bnc_config.specs.Settings.{Settings, network_total};
ghost use Rattle.commands.specs.Check.{IsCauseOf, report_of};

use crate::fault::Fault;
use crate::kept::report_kept;
use crate::warning::{
    warn_of_empty_passwords, warn_of_memory, warn_of_plain_text, warn_of_readers, warn_of_salts,
    warn_of_unknown_keys,
};
use bnc_config::Config;
use std::alloc::Global;
use std::io::Write;
use std::rt::Files;
use std::{fs, io};

/// How many networks all users have together. With 128 bits no sum is too large.
fn network_total(config: &Config) -> u128
    ensures { result ≡ network_total config.now }
{
    let mut total = 0;
    for user in config.users() {
        total += user.networks().len() as u128;
    }
    total
}

/// Writes `users U networks N` and LF.
fn write_report<W: Write>(config: &Config, out: &mut W) -> Result<(), Fault>
    ensures written { OnOk result
        (Appends (W.contents out.old) (W.contents out.new) (report_of config.now)) }
    ensures refused { IfErr result (λ fault. fault ≡ Fault.CannotWrite) }
{
    let users = config.user_count();
    let networks = network_total(config);
    match writeln!(out, "users {users} networks {networks}") {
        Ok(()) => Ok(()),
        Err(_) => Err(Fault::CannotWrite),
    }
}

/// Reads a settings file's text, and writes `users U networks N` and LF, N over all users. After a
/// fault other than `CannotWrite` nothing is written.
pub fn run_check<W: Write>(alloc: Global, text: &[u8], out: &mut W) -> Result<(), Fault>
    ensures written { OnOk result ((settings : Settings) × Means text.now settings
        × Appends (W.contents out.old) (W.contents out.new) (report_of settings)) }
    ensures refused { IfErr result (IsCauseOf text.now) }
    ensures unwritten { IfErr result (λ fault. fault ≢ Fault.CannotWrite → out.new ≡ out.old) }
{
    match Config::read(alloc, text) {
        Ok(config) => write_report(&config, out),
        Err(fault) => Err(Fault::Settings(fault)),
    }
}

/// The text of the settings file at a path.
pub fn settings_text<R: AllocGlobal + Files>(rt: &R, path: &str) -> Result<Vec<u8>, Fault> {
    match fs::read(rt, path) {
        Ok(text) => Ok(text),
        Err(error) => Err(Fault::of_file(rt.alloc(), path, &error)),
    }
}

/// Checks the settings file at a path, and reports on standard output, also what is kept of each
/// network. On standard error it warns of a file that others can read, of unknown keys, of little
/// memory, of short salts, and of passwords that are empty or go in plain text.
pub fn check_file<R: AllocGlobal + Files + Print + Eprint>(
    rt: &R,
    path: &str,
) -> Result<(), Fault> {
    let text = settings_text(rt, path)?;
    match run_check(rt.alloc(), text.as_slice(), &mut io::writer(rt)) {
        Ok(()) => {}
        Err(Fault::Settings(fault)) => {
            return Err(Fault::of_settings(rt.alloc(), path, text.as_slice(), fault));
        }
        Err(fault) => return Err(fault),
    }
    warn_of_readers(rt, path);
    warn_of_unknown_keys(rt, text.as_slice());
    match Config::read(rt.alloc(), text.as_slice()) {
        Ok(config) => {
            warn_of_memory(rt, &config);
            warn_of_salts(rt, &config);
            warn_of_empty_passwords(rt, &config);
            warn_of_plain_text(rt, &config);
            report_kept(rt, path, &config)
        }
        Err(_) => Ok(()),
    }
}
