//! What the network says of the keys by which channels are joined.

ghost use Rattle.std.specs.Prelude.{◌≡◌, OnErr, OnOk, option_map};
ghost use Rattle.irc_support.specs.Settings.{mapping_of};
ghost use Rattle.net_view.specs.Arrival.{Received, arrival_of};
ghost use Rattle.hub_core.specs.JoinKeys.{JoinKeyParts, has_key_letter, join_keys, keys_heard};
ghost use Rattle.hub_core.specs.JoinKeys.{known_key, news_heard};
ghost use Rattle.hub_core.specs.Expecting.{expecting};
ghost use Rattle.hub_core.specs.States.{view_now};
ghost use Rattle.std.specs.Prelude.{List};

use crate::hub::Hub;
use crate::join_keys::{
    JoinKey, confirm, drop_asked, drop_known, drop_known_all, expected, known_key,
};
use crate::lost::is_us;
use crate::wishes::Wish;
use hub_ends::{Inlet, Outlet};
use irc_line::Line;
use irc_names::CaseMapping;
use net_view::{Item, NetworkView, OutOfMemory, Telling, told};

/// What an item says of the keys that are known or asked for.
#[derive(Clone, Copy)]
pub enum KeyNews<'a> {
    /// Nothing.
    Nothing,
    /// We have joined the channel.
    Joined(CaseMapping, &'a [u8]),
    /// What is known of the channel no longer counts.
    Outdated(CaseMapping, &'a [u8]),
    /// What is known of any channel no longer counts.
    AllOutdated,
    /// The connection is lost.
    Lost,
}

/// Whether the letters of a MODE have `k`.
fn has_key_letter(line: &Line) -> bool
    ensures { result ≡ has_key_letter line.now }
{
    match line.param(1) {
        Some(letters) => letters.contains(&b'k'),
        None => false,
    }
}

/// What a line says, by the view before it.
fn news_by_line<'a, V: NetworkView>(view: &V, line: &'a Line) -> KeyNews<'a>
    ensures { (keys : List JoinKeyParts) → news_heard result keys
        ≡ keys_heard (V.view view.now) (Received line.now) keys }
{
    let mapping = view.support().mapping();
    match told(line) {
        Telling::Joined { channel, who, .. } => {
            if is_us(view, who) && view.support().is_channel(channel) {
                KeyNews::Joined(mapping, channel)
            } else {
                KeyNews::Nothing
            }
        }
        Telling::Parted { channel, who } | Telling::Kicked { channel, who } => {
            if is_us(view, who) {
                KeyNews::Outdated(mapping, channel)
            } else {
                KeyNews::Nothing
            }
        }
        Telling::Quits { who } => {
            if is_us(view, who) {
                KeyNews::AllOutdated
            } else {
                KeyNews::Nothing
            }
        }
        Telling::Changed { channel, .. } => {
            if has_key_letter(line) {
                KeyNews::Outdated(mapping, channel)
            } else {
                KeyNews::Nothing
            }
        }
        Telling::Listed { channel, .. } => KeyNews::Outdated(mapping, channel),
        _ => KeyNews::Nothing,
    }
}

/// What an item says of these keys, by the view before it.
#[tactic(auto, using(crate::proofs::JoinKeys::none_heard))]
pub fn news_of<'a, V: NetworkView>(view: &V, item: &'a Item, keys: &Vec<JoinKey>) -> KeyNews<'a>
    ensures { news_heard result (join_keys keys.now.items)
        ≡ keys_heard (V.view view.now) (arrival_of item.now) (join_keys keys.now.items) }
{
    if keys.is_empty() {
        return KeyNews::Nothing;
    }
    match item {
        Item::Line(line) => news_by_line(view, line),
        Item::Lost => KeyNews::Lost,
    }
}

/// Takes what an item says.
pub fn hear_news(keys: &mut Vec<JoinKey>, news: KeyNews<'_>)
    ensures { join_keys keys.new.items ≡ news_heard news.entry (join_keys keys.old.items) }
{
    match news {
        KeyNews::Nothing => {}
        KeyNews::Joined(mapping, channel) => confirm(keys, mapping, channel),
        KeyNews::Outdated(mapping, channel) => drop_known(keys, mapping, channel),
        KeyNews::AllOutdated => drop_known_all(keys),
        KeyNews::Lost => drop_asked(keys),
    }
}

impl<V: NetworkView + Drop, I: Inlet, O: Outlet> Hub<V, I, O> {
    /// The key by which we joined the channel of this name, if the view does not know it: a client
    /// named it in a JOIN that was forwarded, or [`expect_key`](Hub::expect_key) did, and our own JOIN
    /// came next (RFC 2812, section 3.2.1). `None` once we left the channel, and once a MODE with the
    /// letter `k` or a 324 came, by which the view knows the key. It outlives a loss, so that the
    /// channel can be joined again. Of the keys that our JOIN has not confirmed yet, the last 64 count.
    pub fn joined_key(&self, name: &[u8]) -> Option<&[u8]>
        ensures { option_map (λ key. key.now) result
            ≡ known_key (mapping_of (view_now self.now).settings) name.now self.now.wishes.keys }
    {
        known_key(&self.wishes.keys, self.view.support().mapping(), name)
    }

    /// Notes the key by which we are about to ask for the channel of this name, a word without a
    /// comma, as a JOIN of a client does: once our own JOIN comes it is [`joined_key`](Hub::joined_key),
    /// so that a channel that was joined again can be joined again after the next loss too.
    /// `OutOfMemory` if an allocation was refused; nothing has changed then.
    pub fn expect_key(&mut self, name: &[u8], key: &[u8]) -> Result<(), OutOfMemory>
        ensures ok { OnOk result (self.new ≡ expecting name.now key.now self.old) }
        ensures err { OnErr result (self.new ≡ self.old) }
    {
        let mapping = self.view.support().mapping();
        let keys = expected(self.alloc, &self.wishes.keys, mapping, name, key)?;
        self.wishes.say(Wish::Join(keys));
        Ok(())
    }
}
