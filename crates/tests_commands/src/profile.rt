//! The two tables of what is kept and how it is played back, read by themselves and with the rest.

use bnc_config::{Config, ConfigFault, Key, MessagesConfig, ProfileConfig, UtcOffset};
use std::process::Abort;
use std::test::Fail;

/// Each key of both tables, and nothing else.
const TABLES: &str = "[messages]
ctcp = false
server_notices = false
never = [\"NickServ\", \"&bitlbee\"]
to_self = false
by_person = true
[playback]
private_batches = true
times = \"-09:30\"
visits = true
wait = 10
";

/// The offset that `TABLES` has.
const BEHIND: UtcOffset = UtcOffset {
    is_behind: true,
    minutes: 570,
};

/// Whether messages are kept as `TABLES` says.
fn are_kept_by_the_tables(messages: &MessagesConfig) -> bool {
    let (first, second) = match messages.never() {
        [first, second] => (first.as_str(), second.as_str()),
        _ => return false,
    };
    !messages.ctcp()
        && !messages.server_notices()
        && first == "NickServ"
        && second == "&bitlbee"
        && !messages.to_self()
        && messages.by_person()
}

#[test]
fn both_tables_are_read_alone_and_with_the_rest(rt: HostRuntime) -> Result<(), Fail> {
    let alone = ProfileConfig::read(rt.alloc(), TABLES.as_bytes())?;
    let text = format!(in rt.alloc(); "listen = \"host:1\"\n{TABLES}")?;
    let whole = Config::read(rt.alloc(), text.as_bytes())?;
    for messages in &[alone.messages(), whole.messages()] {
        assert!(rt; are_kept_by_the_tables(messages));
    }
    for playback in &[alone.playback(), whole.playback()] {
        assert!(rt; playback.private_batches() && playback.visits() && playback.wait() == 10);
        assert!(rt; playback.times() == Some(BEHIND));
    }
    Ok(())
}

/// Texts of an offset, and how many minutes they are behind UTC or ahead of it; `None` if they are
/// a fault (RFC 3339, section 5.6; -14:00 to +14:00).
const OFFSETS: [(&str, Option<(bool, u32)>); 7] = [
    ("UTC", Some((false, 0))),
    ("+01:00", Some((false, 60))),
    ("+14:00", Some((false, 840))),
    ("-14:00", Some((true, 840))),
    ("-00:01", Some((true, 1))),
    ("+14:01", None),
    ("+05:60", None),
];

#[test]
fn offsets_are_minutes_from_utc(rt: HostRuntime) -> Result<(), Fail> {
    for (text, offset) in &OFFSETS {
        let file = format!(in rt.alloc(); "[playback]\ntimes = \"{text}\"")?;
        let expected = offset.map(|(is_behind, minutes)| UtcOffset { is_behind, minutes });
        match ProfileConfig::read(rt.alloc(), file.as_bytes()) {
            Ok(profile) => assert!(rt;
                expected.is_some() && profile.playback().times() == expected
            ),
            Err(fault) => {
                assert!(rt; expected.is_none());
                assert!(rt; matches!(fault, ConfigFault::BadValue(Key::PlaybackTimes)));
            }
        }
    }
    Ok(())
}
