//! Whether we are on a channel, and under which name.

ghost use Rattle.std.specs.Prelude.{◌≡◌, Bool, option_map};
ghost use Rattle.irc_support.specs.Text.{Text};
ghost use Rattle.net_view.specs.Presence.{name_on, says_on};
ghost use Rattle.tape_view.specs.Tape.{key, key_there, meaning, IsBy};

use crate::kept::is_same;
use crate::tape::{Said, Tape};
use net_view::Telling;
use std::alloc::Allocator;

impl<'a, A: Allocator> Said<'a, A> {
    /// What the line says of our being on a channel: nothing, that we are not on it, or its name.
    pub(crate) fn says_on(&self, channel: &[u8]) -> Option<Option<&'a [u8]>>
        ensures { (us : Text → Bool) → IsBy us self.now →
            option_map (option_map (λ name. name.now)) result
            ≡ says_on (key_there self.now channel.now) us (meaning self.now) }
    {
        match &self.telling {
            Telling::Welcomed { .. } => Some(None),
            Telling::Joined { channel: name, .. }
                if self.marks.by_us
                    && self.support.is_channel(name)
                    && is_same(self.support, channel, name) => { Some(Some(*name)) }
            Telling::Parted { channel: name, .. }
                if self.marks.by_us && is_same(self.support, channel, name) => { Some(None) }
            Telling::Kicked { channel: name, .. }
                if self.marks.names_us && is_same(self.support, channel, name) => { Some(None) }
            Telling::Quits { .. } if self.marks.by_us => Some(None),
            _ => None,
        }
    }
}

impl<'a, A: Allocator> Tape<'a, A> {
    /// The name of a channel, if we are on it.
    pub(crate) fn name_on(&self, channel: &[u8]) -> Option<&'a [u8]>
        ensures { option_map (λ name. name.now) result
            ≡ name_on self.now.readings (key self.now channel.now) }
    {
        let mut tape = self.copy();
        while let Some((said, older)) = tape.split_last() {
            if let Some(answer) = said.says_on(channel) {
                return answer;
            }
            tape = older;
        }
        None
    }
}
