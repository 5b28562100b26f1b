//! What a login says of capabilities.

ghost use Rattle.std.specs.Prelude.{◌≡◌, ◌++◌, ◌∷◌, [], List};
ghost use Rattle.irc_line.specs.Line.{Parts};
ghost use Rattle.sessions.specs.Given.{negotiation_in};

use client_caps::{Asked, Caps, asked_text, read_request};
use irc_line::Line;

/// The state of the negotiation of capabilities (IRCv3 capability negotiation).
#[derive(Clone, Copy)]
pub struct Negotiation {
    /// Whether CAP END is still to come.
    pub is_open: bool,
    /// What the client holds.
    pub held: Caps,
}

impl Negotiation {
    /// None was opened.
    pub fn none() -> Negotiation
        ensures { result ≡ negotiation_in [] }
    {
        Negotiation {
            is_open: false,
            held: Caps::none(),
        }
    }

    /// After one more line.
    pub fn after(self, line: &Line) -> Negotiation
        ensures { (before : List Parts) → self ≡ negotiation_in before →
            result ≡ negotiation_in (before ++ line.now ∷ []) }
    {
        match Asked::of(line) {
            Asked::Offered => Negotiation {
                is_open: true,
                held: self.held,
            },
            Asked::Change => Negotiation {
                is_open: true,
                held: read_request(self.held, asked_text(line)).unwrap_or(self.held),
            },
            Asked::End => Negotiation {
                is_open: false,
                held: self.held,
            },
            _ => self,
        }
    }
}
