//! Warnings of settings that are taken as they are, and might be better.

use bnc_config::{Config, NetworkConfig, unknown_keys};
use std::fs;
use std::net::IpAddr;
use std::os::unix::fs::MetadataExt;
use std::rt::Files;

/// The bit of a file's mode that lets others read it, who are neither its owner nor of its group.
const READ_BY_OTHERS: u32 = 0o004;

/// How many bytes a salt needs for no warning.
const SALT: usize = 8;

/// Warns on standard error of a settings file that others can read: it has the passwords of
/// networks.
pub fn warn_of_readers<R: Files + Eprint>(rt: &R, path: &str) {
    let Ok(found) = fs::metadata(rt, path) else {
        return;
    };
    if found.mode() & READ_BY_OTHERS != 0 {
        let _ = eprintln!(rt; "bnc: warning: others can read {path}");
    }
}

/// Warns on standard error that the terminal shows a password while it is typed.
pub(crate) fn warn_of_echo(rt: &impl Eprint) {
    let _ = eprintln!(rt;
        "bnc: warning: the password can be seen while it is typed; contrib/setup.sh hides it"
    );
}

/// Warns on standard error of each user whose salt has fewer than 8 bytes.
pub fn warn_of_salts(rt: &impl Eprint, config: &Config) {
    for user in config.users() {
        if user.salt().len() < SALT {
            let name = str::from_utf8(user.name()).unwrap_or("");
            let _ = eprintln!(rt; "bnc: warning: the salt of {name} is shorter than 8 bytes");
        }
    }
}

/// Warns on standard error of each user whose password is the empty text.
pub fn warn_of_empty_passwords(rt: &impl Eprint, config: &Config) {
    for user in config.users() {
        if config.password_matches(user.name(), b"") {
            let name = str::from_utf8(user.name()).unwrap_or("");
            let _ = eprintln!(rt; "bnc: warning: the password of {name} is empty");
        }
    }
}

/// Warns on standard error of a memory of less than a sixteenth of the history: each network keeps up to
/// 128 times as many messages as the history says, of some 500 bytes as a rule.
pub fn warn_of_memory(rt: &impl Eprint, config: &Config) {
    let least = config.history() / 16;
    if (config.memory() as usize) < least {
        let _ = eprintln!(rt;
            "bnc: warning: memory is less than a sixteenth of history, {least} MiB"
        );
    }
}

/// Warns on standard error of each key of a settings file's text that no setting has.
pub fn warn_of_unknown_keys<R: AllocGlobal + Eprint>(rt: &R, text: &[u8]) {
    if let Ok(keys) = unknown_keys(rt.alloc(), text) {
        for key in &keys {
            let _ = eprintln!(rt; "bnc: warning: unknown key {}", key.as_str());
        }
    }
}

/// The host of an address, `HOST:PORT` or `[IPV6]:PORT`.
fn host_of(address: &str) -> &str {
    match address
        .strip_prefix('[')
        .and_then(|rest| rest.split_once(']'))
    {
        Some((host, _)) => host,
        None => match address.split_once(':') {
            Some((host, _)) => host,
            None => address,
        },
    }
}

/// Whether a host is this machine itself: `localhost`, or an address of the loopback range (RFC 1122,
/// section 3.2.1.3; RFC 4291, section 2.5.3).
fn is_this_machine(host: &str) -> bool {
    match host.parse::<IpAddr>() {
        Ok(address) => address.to_canonical().is_loopback(),
        Err(_) => host.eq_ignore_ascii_case("localhost"),
    }
}

/// Whether a password of a network leaves this machine as it is, since no TLS proxy here is dialled.
fn goes_in_plain_text(network: &NetworkConfig) -> bool {
    let has_account = network.sasl().is_some_and(|sasl| sasl.account().is_some());
    (has_account || network.password().is_some()) && !is_this_machine(host_of(network.address()))
}

/// Warns on standard error of each network whose password goes to another machine in plain text.
pub fn warn_of_plain_text(rt: &impl Eprint, config: &Config) {
    for user in config.users() {
        for network in user.networks() {
            if goes_in_plain_text(network) {
                let name = str::from_utf8(network.name()).unwrap_or("");
                let address = network.address();
                let _ = eprintln!(rt;
                    "bnc: warning: the password of {name} goes to {address} without TLS"
                );
            }
        }
    }
}
