//! The settings file that `bnc setup` makes of answers, with a salt that is given.

use bnc_config::{Config, Place};
use first_settings::{Interview, Step, password_lines, settings_text};
use std::test::Fail;

/// Good answers, the nick with a byte that TOML writes with a backslash.
const ANSWERS: [&str; 5] = ["irc.example.org:6667", "ann\\", "#c #d", "bc", "bc"];

/// The file that they make: the password's digest is by `printf 'abc' | sha256sum`.
const FILE: &str = "# Settings of bnc: docs/SETTINGS.md has each key.
listen = \"127.0.0.1:6667\"
history = 500
retry = 30
# what is kept over a restart, in a folder beside this file
#kept = \"kept\"

[[user]]
name = \"ann\\\\\"
salt = \"61\"
password = \"ba7816bf8f01cfea414140de5dae2223b00361a396177a9cb410ff61f20015ad\"

[[user.network]]
name = \"net\"
address = \"irc.example.org:6667\"
nick = \"ann\\\\\"
user = \"ann\\\\\"
realname = \"ann\\\\\"
join = [\"#c\", \"#d\"]

# not kept: requests by CTCP, notices of servers, what you say to yourself, and what is said to or by services
[messages]
ctcp = false
server_notices = false
to_self = false
never = [\"NickServ\", \"ChanServ\"]
# who talks much pushes out nobody else
by_person = true

# private messages come person by person to clients that know batches, and with their times in the text to clients
# that know none; a client that attaches just after a reconnect waits for the channels, at most 10 seconds
[playback]
private_batches = true
times = \"UTC\"
wait = 10
";

#[test]
fn the_answers_make_a_file_that_can_be_read(rt: HostRuntime) -> Result<(), Fail> {
    let mut interview = Interview::new(rt.alloc());
    let mut last = Step::GiveUp;
    for line in ANSWERS {
        last = interview.answer(rt.alloc(), line)?;
    }
    assert!(rt; last == Step::Complete);
    let text = settings_text(rt.alloc(), interview.answers(), b"a")?;
    assert!(rt; text.as_slice() == FILE.as_bytes());
    let config = Config::read(rt.alloc(), text.as_slice())?;
    assert!(rt; config.password_matches(b"ann\\", b"bc"));
    let place = Place {
        user: 0,
        network: 0,
    };
    let network = config.network(place).ok_or("a network")?;
    assert!(rt; network.address() == "irc.example.org:6667" && network.join().len() == 2);
    Ok(())
}

/// The lines of the password `bc` with the salt `a`.
const LINES: &str = "salt = \"61\"
password = \"ba7816bf8f01cfea414140de5dae2223b00361a396177a9cb410ff61f20015ad\"
";

#[test]
fn a_password_has_two_lines(rt: HostRuntime) -> Result<(), Fail> {
    let lines = password_lines(rt.alloc(), b"a", b"bc")?;
    assert!(rt; lines.as_slice() == LINES.as_bytes());
    Ok(())
}
