//! What is known of a network from the items that came.

ghost use Rattle.std.specs.Prelude.{◌≡◌, ◌∷◌, ◌++◌, [], List, false, is_some, OnOk, OnErr, IsOk};
ghost use Rattle.std.specs.Option.{option_map};
ghost use Rattle.net_view.specs.Arrival.{Arrival, arrival_of};
ghost use Rattle.net_view.specs.StateLines.{may_need_memory};
ghost use Rattle.net_view.specs.View.{View, view_of};
ghost use Rattle.net_view.specs.Readers.{channels_shown, channel_shown, members_shown};
ghost use Rattle.net_view.specs.Readers.{member_shown};
ghost use Rattle.net_view.specs.Written.{AreWritten};
ghost use Rattle.net_view.specs.Readers.{account_shown, mode_parts, mode_shown};

use crate::OutOfMemory;
use crate::channel::{Channel, Member};
use crate::item::Item;
use irc_support::Support;
use std::alloc::Allocator;

/// A network as its lines describe it. Its meaning, `view`, is a function of the whole transcript:
/// of all items that were taken, in order. Names are compared by the network's case mapping, and
/// places are counted from 0 in the order of the names' keys, byte by byte.
///
/// Before the first `001` with a nameable nick nothing is known.
pub trait NetworkView {
    ghost view: { Self → View };

    /// The allocator of the settings.
    type Memory: Allocator;

    /// Takes the next item. Only a state line, as `:bob!b@h JOIN #c`, may need memory; without it
    /// the view stays as it was.
    fn take<A: Allocator>(&mut self, item: &Item<A>) -> Result<(), OutOfMemory>
        ensures taken { (items : List Arrival) → view self.old ≡ view_of items →
            OnOk result (view self.new ≡ view_of (items ++ arrival_of item.now ∷ [])) }
        ensures kept { OnErr result (view self.new ≡ view self.old) }
        ensures free { may_need_memory (arrival_of item.now) ≡ false → IsOk result };

    /// Does nothing: its clause says that what is seen came from lines, each of which can be
    /// written, and from losses. So every fact of a transcript's view holds of it.
    fn comes_from_lines(&self)
        ensures { (items : List Arrival) × AreWritten items × (view self.now ≡ view_of items) };

    /// Whether the network took us in.
    fn welcomed(&self) -> bool
        ensures { result ≡ is_some (view self.now).own };

    /// Whether the settings are fixed: by `376`, `422` or a JOIN after the last welcome.
    fn ready(&self) -> bool
        ensures { result ≡ (view self.now).ready };

    /// The settings in force: those of the `005` lines after the last welcome and before they were
    /// fixed.
    fn support(&self) -> &Support<Self::Memory>
        ensures { result.now ≡ (view self.now).settings };

    /// Our own nick; `None` before the first welcome.
    fn own(&self) -> Option<&[u8]>
        ensures { option_map (λ nick. nick.now) result ≡ (view self.now).own };

    /// How many channels we are on.
    fn channel_count(&self) -> usize
        ensures { result ≡ channels_shown (view self.now) };

    /// The channel at place `i`; `None` from `channel_count` on.
    fn channel_at(&self, i: usize) -> Option<Channel<'_>>
        ensures name { option_map (λ channel. channel.name.now) result
            ≡ option_map (λ channel. channel.name) (channel_shown (view self.now) i) }
        ensures topic { option_map (λ channel. option_map (λ topic. topic.now) channel.topic) result
            ≡ option_map (λ channel. channel.topic) (channel_shown (view self.now) i) };

    /// The mode at place `j` of the channel at place `i`: its letter, and its parameter, if it
    /// has one. Modes are ordered by the bytes of their letters; `None` after the last one.
    fn mode_at(&self, i: usize, j: usize) -> Option<(u8, Option<&[u8]>)>
        ensures { option_map mode_parts result ≡ mode_shown (view self.now) i j };

    /// How many members the channel at place `i` has, we among them; 0 from `channel_count` on.
    fn member_count(&self, i: usize) -> usize
        ensures { result ≡ members_shown (view self.now) i };

    /// The member at place `j` of the channel at place `i`; `None` from `member_count` on.
    fn member_at(&self, i: usize, j: usize) -> Option<Member<'_>>
        ensures nick { option_map (λ member. member.nick.now) result
            ≡ option_map (λ member. member.nick) (member_shown (view self.now) i j) }
        ensures ranks { option_map (λ member. member.ranks) result
            ≡ option_map (λ member. member.ranks) (member_shown (view self.now) i j) }
        ensures account { option_map (λ member. option_map (λ name. name.now) member.account) result
            ≡ option_map (λ member. member.account) (member_shown (view self.now) i j) }
        ensures away { option_map (λ member. option_map (λ text. text.now) member.away) result
            ≡ option_map (λ member. member.away) (member_shown (view self.now) i j) };

    /// The account of the person of this nick, if one is known: the account of a member
    /// of a channel that we are on.
    fn account_of(&self, nick: &[u8]) -> Option<&[u8]>
        ensures { option_map (λ name. name.now) result ≡ account_shown (view self.now) nick.now };
}
