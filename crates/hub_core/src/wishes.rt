//! What clients asked of the network that outlives a connection.

ghost use Rattle.std.specs.Prelude.{◌≡◌, IfOk};
ghost use Rattle.net_view.specs.Arrival.{arrival_of};
ghost use Rattle.net_view.specs.View.{View};
ghost use Rattle.hub_core.specs.JoinKeys.{keys_heard, news_heard};
ghost use Rattle.hub_core.specs.Wishes.{no_wishes, wished, wishes_heard, wishes_of, wishes_said};

use crate::away::{Away, away_text};
use crate::join_keys::{JoinKey, asked_for};
use crate::key_news::{KeyNews, hear_news};
use irc_line::Line;
use net_view::{Item, NetworkView, OutOfMemory};
use std::alloc::Global;

/// What clients asked of the network that outlives a connection.
#[derive(Drop)]
pub struct Wishes {
    pub away: Away,
    // whether a nick was asked for over this connection
    pub nick: bool,
    // the keys by which channels were joined, and are asked to be
    pub keys: Vec<JoinKey>,
}

/// What a line that a client says asks for, of what outlives a connection.
#[derive(Drop)]
pub enum Wish {
    /// Nothing.
    Nothing,
    /// Another nick.
    Nick,
    /// To be away by this text, or to be back.
    Away(Option<Vec<u8>>),
    /// To join channels: these are the keys then.
    Join(Vec<JoinKey>),
}

/// What a line asks for, beside what was asked for before. `OutOfMemory` if an allocation was refused.
pub fn wish_of<V: NetworkView>(
    alloc: Global,
    view: &V,
    wishes: &Wishes,
    line: &Line,
) -> Result<Wish, OutOfMemory>
    ensures { IfOk result (λ wish. wished wish (wishes_of wishes.now)
        ≡ wishes_said (V.view view.now) line.now (wishes_of wishes.now)) }
{
    if line.is(b"NICK") {
        return Ok(Wish::Nick);
    }
    if line.is(b"JOIN") {
        let mapping = view.support().mapping();
        return Ok(Wish::Join(asked_for(alloc, &wishes.keys, mapping, line)?));
    }
    if line.is(b"AWAY") {
        return Ok(Wish::Away(away_text(alloc, line)?));
    }
    Ok(Wish::Nothing)
}

impl Wishes {
    /// Nothing was asked for.
    pub fn none(alloc: Global) -> Wishes
        ensures { wishes_of result ≡ no_wishes }
    {
        Wishes {
            away: Away::none(),
            nick: false,
            keys: Vec::new(alloc),
        }
    }

    /// Takes what a line that was forwarded asks for.
    pub fn say(&mut self, wish: Wish)
        ensures { wishes_of self.new ≡ wished wish (wishes_of self.old) }
    {
        match wish {
            Wish::Nothing => {}
            Wish::Nick => self.nick = true,
            Wish::Away(text) => self.away.asked = text,
            Wish::Join(keys) => self.keys = keys,
        }
    }

    /// Takes an item of the network, which says this of keys by the view before it.
    pub fn hear(&mut self, item: &Item, news: KeyNews<'_>)
        ensures { (v : View) → news_heard news.entry (wishes_of self.old).keys
            ≡ keys_heard v (arrival_of item.now) (wishes_of self.old).keys → wishes_of self.new
            ≡ wishes_heard v (arrival_of item.now) (wishes_of self.old) }
    {
        self.away.hear(item);
        if let Item::Lost = item {
            self.nick = false;
        }
        hear_news(&mut self.keys, news);
    }
}
