//! What is known of persons in sight: the nick as spelled last, the account and the away text.

ghost use Rattle.std.specs.Prelude.{◌≡◌, Bool, Some, is_some, option_map};
ghost use Rattle.irc_support.specs.Text.{Text};
ghost use Rattle.net_view.specs.Presence.{is_on};
ghost use Rattle.net_view.specs.Facts.{in_sight, known, says_account, says_away, says_spelling};
ghost use Rattle.net_view.specs.Tells.{meant};
ghost use Rattle.tape_view.specs.Marks.{IsMarked};
ghost use Rattle.tape_view.specs.FactKinds.{joined_to, says_of};
ghost use Rattle.tape_view.specs.Tape.{key, key_there, meaning, meaning_in, IsBy};

use crate::members::word_of;
use crate::tape::{Said, Tape};
use net_view::Telling;
use std::alloc::Allocator;

/// What may be known of a person in sight.
#[derive(Clone, Copy)]
pub(crate) enum Fact {
    Nick,
    Account,
    Away,
}

impl<'a, A: Allocator> Said<'a, A> {
    /// The channel that our own JOIN names.
    fn joined_by_us(&self) -> Option<&'a [u8]>
        ensures { (us : Text → Bool) → IsBy us self.now →
            option_map (λ name. key_there self.now name.now) result
            ≡ joined_to us (meaning self.now) }
    {
        match &self.telling {
            Telling::Joined { channel, .. } if self.marks.by_us => Some(*channel),
            _ => None,
        }
    }
}

impl<'a, A: Allocator> Tape<'a, A> {
    /// Whether we are on the channel.
    fn is_on(&self, channel: &[u8]) -> bool
        ensures { result ≡ is_on self.now.readings (key self.now channel.now) }
    {
        self.name_on(channel).is_some()
    }

    /// Whether the person is a member of some channel that we are on. The channels that are asked
    /// are those of our own JOINs.
    #[tactic(auto, using(crate::proofs::SightLine::left_on, crate::proofs::SightLine::sees))]
    fn is_in_sight(&self, nick: &[u8]) -> bool
        ensures { result ≡ in_sight self.now.readings (key self.now nick.now) }
    {
        let mut tape = self.copy();
        while let Some((said, older)) = tape.split_last() {
            if let Some(channel) = said.joined_by_us() {
                if self.is_member(channel, nick) {
                    return true;
                }
            }
            tape = older;
        }
        false
    }

    /// This person's nick, if the last line spells it.
    fn spelled(&self, said: &Said<'a, A>, nick: &[u8]) -> Option<&'a [u8]>
        ensures { (us : Text → Bool) →
            IsMarked us (meaning_in self.now said.now) said.now.marks →
            option_map (λ spelled. Some spelled.now) result
            ≡ says_spelling us (is_on self.now.readings) (meaning_in self.now said.now)
            (key self.now nick.now) }
    {
        match &said.telling {
            Telling::Joined { channel, who, .. } => {
                if !self.is_on(channel) {
                    return None;
                }
                if self.is_same(nick, who) {
                    Some(*who)
                } else {
                    None
                }
            }
            Telling::Present { channel, line } => {
                if !self.is_on(channel) {
                    return None;
                }
                match word_of(self.support(), line, nick) {
                    Some(word) => Some(word.nick),
                    None => None,
                }
            }
            Telling::Renamed { new, .. } => {
                if self.is_same(nick, new) && (said.marks.by_us || !said.marks.names_us) {
                    Some(*new)
                } else {
                    None
                }
            }
            _ => None,
        }
    }

    /// What the last line, which says this, says of a person's account: nothing, that there is
    /// none, or the account.
    fn says_account(&self, telling: &Telling<'a, A>, nick: &[u8]) -> Option<Option<&'a [u8]>>
        ensures { (us : Text → Bool) → option_map (option_map (λ name. name.now)) result
            ≡ says_account us (is_on self.now.readings) (meant self.now.settings telling.now)
            (key self.now nick.now) }
    {
        match telling {
            Telling::Joined {
                channel,
                who,
                account,
            } if self.is_same(nick, who) && self.is_on(channel) => { *account }
            Telling::HasAccount { who, account } if self.is_same(nick, who) => Some(*account),
            _ => None,
        }
    }

    /// What a line, which says this, says of a person's being away: nothing, that it ended, or the
    /// text.
    fn says_away(&self, telling: &Telling<'a, A>, nick: &[u8]) -> Option<Option<&'a [u8]>>
        ensures { (us on : Text → Bool) → option_map (option_map (λ text. text.now)) result
            ≡ says_away us on (meant self.now.settings telling.now) (key self.now nick.now) }
    {
        match telling {
            Telling::IsAway { who, text } if self.is_same(nick, who) => Some(*text),
            _ => None,
        }
    }

    /// What the last line says of this fact of a person: nothing, that there is none, or the fact.
    fn says_fact(&self, said: &Said<'a, A>, nick: &[u8], fact: Fact) -> Option<Option<&'a [u8]>>
        ensures { (us : Text → Bool) →
            IsMarked us (meaning_in self.now said.now) said.now.marks →
            option_map (option_map (λ text. text.now)) result
            ≡ says_of fact us (is_on self.now.readings) (meaning_in self.now said.now)
            (key self.now nick.now) }
    {
        match fact {
            Fact::Nick => match self.spelled(said, nick) {
                Some(spelled) => Some(Some(spelled)),
                None => None,
            },
            Fact::Account => self.says_account(&said.telling, nick),
            Fact::Away => self.says_away(&said.telling, nick),
        }
    }

    /// What is known of a person: what was said last, if the person has been in sight ever
    /// since. The person is followed back under earlier names. Whoever is in sight after a line
    /// that does not spell the nick was in sight before it.
    #[tactic(auto, using(net_view::proofs::People::unseen_none))]
    pub(crate) fn fact(&self, nick: &[u8], fact: Fact) -> Option<&'a [u8]>
        ensures { option_map (λ text. text.now) result
            ≡ known (says_of fact) self.now.readings (key self.now nick.now) }
    {
        if !self.is_in_sight(nick) {
            return None;
        }
        let mut name = nick;
        let mut tape = self.copy();
        while let Some((said, older)) = tape.split_last() {
            if let Some(answer) = tape.says_fact(&said, name, fact) {
                return answer;
            }
            let spelled = tape.spelled(&said, name);
            name = said.name_before(name)?;
            if spelled.is_some() && !older.is_in_sight(name) {
                return None;
            }
            tape = older;
        }
        None
    }
}
