//! What a client asks for.

ghost use Rattle.std.specs.Prelude.{◌≡◌};
ghost use Rattle.client_caps.specs.Request.{request_of, wish_of};

use crate::caps::{Cap, Caps};
use irc_support::next_word;

/// What a word asks for: which capability, and whether it is to be held.
fn wish_of(word: &[u8]) -> Option<(Cap, bool)>
    ensures { result ≡ wish_of word.now }
{
    match word {
        [b'-', name @ ..] => Some((Cap::named(name)?, false)),
        _ => Some((Cap::named(word)?, true)),
    }
}

/// The capabilities that a client holds after a request, the text of `CAP REQ :multi-prefix
/// -batch`: words with spaces between, each the name of a capability, with `-` before it if the
/// client gives it up. A later word overrides an earlier one, and an empty request changes nothing.
/// `None` if a word is no name of the six: a request is taken whole or not at all (IRCv3
/// capability negotiation).
#[tactic(auto, using(crate::proofs::Requests::request_steps))]
pub fn read_request(caps: Caps, text: &[u8]) -> Option<Caps>
    ensures { result ≡ request_of caps text.now }
{
    let mut asked = caps;
    let mut left = text;
    while let Some((word, rest)) = next_word(left) {
        let (cap, held) = wish_of(word)?;
        asked = asked.with(cap, held);
        left = rest;
    }
    Some(asked)
}
