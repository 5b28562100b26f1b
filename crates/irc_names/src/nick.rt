//! Which nicks anything is said about.

ghost use Rattle.std.specs.Prelude.{◌≡◌};
ghost use Rattle.std.specs.List.{list_any};
ghost use Rattle.irc_names.specs.Nick.{begins_nick, is_outside_nick};

fn can_begin(byte: u8) -> bool
    ensures { result ≡ begins_nick byte }
{
    matches!(byte, b'0'..=b'9' | b'A'..=b'}' | 128..)
}

fn is_barred(byte: u8) -> bool
    ensures { result ≡ is_outside_nick byte }
{
    matches!(byte, 0..=b'!' | b'@' | 127)
}

fn has_barred(nick: &[u8]) -> bool
    ensures { result ≡ list_any is_outside_nick nick.now }
{
    nick.iter().any(|byte| is_barred(*byte))
}

/// Whether anything is said about this nick: it is not empty, begins with an ASCII letter, a digit,
/// one of `` [ ] \ ` _ ^ { | } `` or a byte from 0x80 on, and holds no space, no byte below 0x20,
/// no 0x7F, no `!` and no `@`. Our own choice: RFC 2812, section 2.3.1, allows fewer nicks than
/// networks do.
pub fn is_nameable(nick: &[u8]) -> bool
    ensures { result ≡ Rattle.irc_names.specs.Nick.is_nameable nick.now }
{
    match nick {
        [] => false,
        [first, ..] => can_begin(*first) && !has_barred(nick),
    }
}
