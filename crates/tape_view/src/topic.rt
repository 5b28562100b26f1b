//! The topic of a channel on which we are.

ghost use Rattle.std.specs.Prelude.{◌≡◌, Bool, true, option_map};
ghost use Rattle.irc_support.specs.Text.{Text};
ghost use Rattle.net_view.specs.Presence.{is_on};
ghost use Rattle.net_view.specs.Topic.{says_topic, topic_of};
ghost use Rattle.tape_view.specs.Tape.{key, key_there, meaning, IsBy};

use crate::kept::is_same;
use crate::tape::{Said, Tape};
use net_view::Telling;
use std::alloc::Allocator;

impl<'a, A: Allocator> Said<'a, A> {
    /// What the line says of a channel's topic: nothing, that there is none, or the topic.
    fn says_topic(&self, channel: &[u8]) -> Option<Option<&'a [u8]>>
        ensures { (us : Text → Bool) → IsBy us self.now →
            option_map (option_map (λ text. text.now)) result
            ≡ says_topic (key_there self.now channel.now) us (meaning self.now) }
    {
        match &self.telling {
            Telling::Joined { channel: name, .. }
                if self.marks.by_us
                    && self.support.is_channel(name)
                    && is_same(self.support, channel, name) => { Some(None) }
            Telling::Titled {
                channel: name,
                topic,
            } if is_same(self.support, channel, name) => Some(*topic),
            _ => None,
        }
    }
}

impl<'a, A: Allocator> Tape<'a, A> {
    /// The topic of a channel on which we are.
    pub(crate) fn topic(&self, channel: &[u8]) -> Option<&'a [u8]>
        requires { is_on self.now.readings (key self.now channel.now) ≡ true }
        ensures { option_map (λ text. text.now) result
            ≡ topic_of self.now.readings (key self.now channel.now) }
    {
        let mut tape = self.copy();
        while let Some((said, older)) = tape.split_last() {
            if let Some(answer) = said.says_topic(channel) {
                return answer;
            }
            tape = older;
        }
        None
    }
}
