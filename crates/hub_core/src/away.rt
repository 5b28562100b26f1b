//! The AWAY of our clients: what they asked for, and what the network answered.

ghost use Rattle.std.specs.Prelude.{◌≡◌, IfOk};
ghost use Rattle.net_view.specs.Arrival.{Received, arrival_of};
ghost use Rattle.hub_core.specs.Away.{away_heard, away_of, away_text, kept_text, not_away};

use irc_line::Line;
use net_view::{Item, OutOfMemory};
use network_tables::copy_of;
use std::alloc::Global;

/// What our clients asked for by AWAY, and by which text we are away (RFC 2812, section 4.1).
#[derive(Drop)]
pub struct Away {
    // the text of the last AWAY that was forwarded, if no answer came since
    pub asked: Option<Vec<u8>>,
    // the text by which we are away
    pub text: Option<Vec<u8>>,
}

/// The text of an AWAY; `None` if it says that we are back.
pub fn away_text(alloc: Global, line: &Line) -> Result<Option<Vec<u8>>, OutOfMemory>
    ensures { IfOk result (λ text. kept_text text ≡ away_text line.now) }
{
    match line.param(0) {
        Some(text) if !text.is_empty() => copy_of(alloc, Some(text)),
        _ => Ok(None),
    }
}

impl Away {
    /// Nobody said AWAY.
    pub fn none() -> Away
        ensures { away_of result ≡ not_away }
    {
        Away {
            asked: None,
            text: None,
        }
    }

    /// Takes a line of the network: 306 grants what was asked for last, 305 says that we are back.
    fn hear_line(&mut self, line: &Line)
        ensures { away_of self.new ≡ away_heard (Received line.now) (away_of self.old) }
    {
        if line.is(b"306") {
            if let Some(text) = self.asked.take() {
                self.text = Some(text);
            }
        } else if line.is(b"305") {
            self.text = None;
        }
    }

    /// Takes an item. What no answer came to before a loss is no longer asked for.
    pub fn hear(&mut self, item: &Item)
        ensures { away_of self.new ≡ away_heard (arrival_of item.now) (away_of self.old) }
    {
        match item {
            Item::Line(line) => self.hear_line(line),
            Item::Lost => self.asked = None,
        }
    }
}
