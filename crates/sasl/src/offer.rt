//! Whether a network offers a login.

ghost use Rattle.std.specs.Prelude.{◌≡◌};
ghost use Rattle.sasl.specs.Offer.{is_offer, offers};

use crate::said::has_item;
use irc_line::{place_of, split_byte};

/// Whether a word offers the mechanism: `sasl`, or `sasl=EXTERNAL,PLAIN` with it in the list.
fn is_offer(mechanism: &[u8], word: &[u8]) -> bool
    ensures { result ≡ is_offer mechanism.now word.now }
{
    match place_of(b'=', word) {
        Some(mark) => &word[..mark] == b"sasl".as_slice()
            && has_item(b',', mechanism, &word[mark + 1..]),
        None => word == b"sasl".as_slice(),
    }
}

/// Whether a list of capabilities offers the mechanism (IRCv3 sasl 3.1 and 3.2).
pub fn offers(mechanism: &[u8], list: &[u8]) -> bool
    ensures { result ≡ offers mechanism.now list.now }
{
    let mut rest = list;
    while let Some((word, after)) = split_byte(b' ', rest) {
        if is_offer(mechanism, word) {
            return true;
        }
        rest = after;
    }
    is_offer(mechanism, rest)
}
