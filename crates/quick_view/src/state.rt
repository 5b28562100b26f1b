//! What is kept of a network.

use crate::OutOfMemory;
use crate::listing::{keep_all, listed_in};
use crate::moding::{change_modes, change_room};
use irc_line::Line;
use irc_support::{Ranks, Support};
use network_tables::{
    Copies, Modes, People, Rooms, Sought, Table, copy_of, copy_of_told, fresh_room, name_person,
    new_member, new_person, no_room, rename_person, retain_seen, seat, set_account, set_away,
    set_modes, set_topic, unseat,
};
use std::alloc::Allocator;
use std::collections::VecDeque;

/// What is kept of a network.
#[derive(Drop)]
pub(crate) struct State<A: Allocator> {
    pub(crate) alloc: A,
    pub(crate) own: Option<Vec<u8, A>>,
    pub(crate) ready: bool,
    pub(crate) support: Support<A>,
    pub(crate) rooms: Rooms<A>,
    pub(crate) people: People<A>,
    /// The copies that a NICK makes before it changes anything.
    pub(crate) copies: Copies<A>,
}

impl<A: Allocator + Copy> State<A> {
    ghost use Rattle.std.specs.Prelude.{◌≡◌, IfOk, OnOk, OnErr};
    ghost use Rattle.std.specs.Option.{option_map};
    ghost use Rattle.irc_support.specs.Settings.{key_by};
    ghost use Rattle.net_view.specs.Step.{standing_of};
    ghost use Rattle.net_view.specs.Transcript.{is_us};
    ghost use Rattle.net_view.specs.View.{empty_view, welcomed_view, lost_view};
    ghost use Rattle.net_view.specs.Changes.{readied, joined_view, parted_view, on_person};
    ghost use Rattle.net_view.specs.Changes.{on_channel};
    ghost use Rattle.net_view.specs.Changes.{with_topic, with_account, with_away};
    ghost use Rattle.quick_view.specs.Kept.{view_kept};
    ghost use Rattle.quick_view.specs.Views.{quitted_view, left_view, entered_view, renamed_view};
    ghost use Rattle.net_view.specs.MemberSets.{HasSets, IsKnowing};
    ghost use Rattle.net_view.specs.Step.{after_told};
    ghost use Rattle.net_view.specs.Told.{Changed, Listed};
    ghost use Rattle.quick_view.specs.Moding.{letters_in, modes_in};
    ghost use Rattle.quick_view.specs.Listing.{listings_in, listed_view};

    /// What is kept of a network that has not taken us in.
    #[tactic(auto, using(crate::proofs::ViewLemmas::tables))]
    pub(crate) fn new(alloc: A) -> Result<State<A>, OutOfMemory>
        ensures { IfOk result (λ s. view_kept s ≡ empty_view) }
    {
        let support = Support::new(alloc)?;
        Ok(State {
            alloc,
            own: None,
            ready: false,
            support,
            rooms: Table::new(alloc),
            people: People::new(alloc),
            copies: VecDeque::new(alloc),
        })
    }

    /// Whether the nick is ours.
    pub(crate) fn is_us(&self, nick: &[u8]) -> bool
        ensures { result ≡ is_us (standing_of (view_kept self.now)) (key_by self.now.support
            nick.now) }
    {
        match &self.own {
            Some(own) => self.support.mapping().order(own, nick).is_eq(),
            None => false,
        }
    }

    /// `001`: all starts again.
    #[tactic(auto, using(crate::proofs::ViewLemmas::tables))]
    pub(crate) fn welcome(&mut self, nick: &[u8]) -> Result<(), OutOfMemory>
        ensures welcomed { OnOk result (view_kept self.new ≡ welcomed_view nick.now) }
        ensures kept { OnErr result (view_kept self.new ≡ view_kept self.old) }
    {
        let own = Vec::from_slice(self.alloc, nick)?;
        let support = Support::new(self.alloc)?;
        self.own = Some(own);
        self.ready = false;
        self.support = support;
        self.rooms.clear();
        self.people.clear();
        Ok(())
    }

    /// A loss, or our own QUIT: we are on no channel, and nobody is in sight.
    #[tactic(auto, using(crate::proofs::ViewLemmas::tables))]
    pub(crate) fn lose(&mut self)
        ensures { view_kept self.new ≡ lost_view (view_kept self.old) }
    {
        self.rooms.clear();
        self.people.clear();
    }

    /// `376`, `422`: the settings are fixed.
    pub(crate) fn settle(&mut self)
        ensures { view_kept self.new ≡ readied (view_kept self.old) }
    {
        self.ready = self.own.is_some();
    }

    /// TOPIC, `332`, `331`.
    pub(crate) fn take_topic(
        &mut self,
        channel: &[u8],
        topic: Option<&[u8]>,
    ) -> Result<(), OutOfMemory>
        ensures taken { OnOk result (view_kept self.new ≡ on_channel (view_kept self.old)
            (key_by self.old.support channel.now)
            (with_topic (option_map (λ t. t.now) topic.entry))) }
        ensures kept { OnErr result (view_kept self.new ≡ view_kept self.old) }
    {
        let topic = copy_of(self.alloc, topic)?;
        let channel = Sought::Name(self.support.mapping(), channel);
        set_topic(self.alloc, &mut self.rooms, channel, topic);
        Ok(())
    }

    /// ACCOUNT.
    pub(crate) fn take_account(
        &mut self,
        who: &[u8],
        account: Option<&[u8]>,
    ) -> Result<(), OutOfMemory>
        ensures taken { OnOk result (view_kept self.new ≡ on_person (view_kept self.old)
            (key_by self.old.support who.now)
            (with_account (option_map (λ t. t.now) account.entry))) }
        ensures kept { OnErr result (view_kept self.new ≡ view_kept self.old) }
    {
        let account = copy_of(self.alloc, account)?;
        let who = Sought::Name(self.support.mapping(), who);
        set_account(self.alloc, &mut self.people, who, account);
        Ok(())
    }

    /// AWAY.
    pub(crate) fn take_away(&mut self, who: &[u8], text: Option<&[u8]>) -> Result<(), OutOfMemory>
        ensures taken { OnOk result (view_kept self.new ≡ on_person (view_kept self.old)
            (key_by self.old.support who.now) (with_away (option_map (λ t. t.now) text.entry))) }
        ensures kept { OnErr result (view_kept self.new ≡ view_kept self.old) }
    {
        let text = copy_of(self.alloc, text)?;
        let who = Sought::Name(self.support.mapping(), who);
        set_away(self.alloc, &mut self.people, who, text);
        Ok(())
    }

    /// Another's JOIN of a channel.
    #[tactic(auto, using(crate::proofs::ViewLemmas::tables))]
    pub(crate) fn join(
        &mut self,
        channel: &[u8],
        who: &[u8],
        account: Option<Option<&[u8]>>,
    ) -> Result<(), OutOfMemory>
        ensures taken { OnOk result (view_kept self.new ≡ joined_view (view_kept self.old)
            (key_by self.old.support channel.now) (key_by self.old.support who.now) who.now
            (option_map (option_map (λ t. t.now)) account.entry)) }
        ensures kept { OnErr result (view_kept self.new ≡ view_kept self.old) }
    {
        let mapping = self.support.mapping();
        let channel = Sought::Name(mapping, channel);
        let mut near = None;
        if !self.rooms.contains_near(&mut near, channel) {
            return Ok(());
        }
        self.people.reserve(1)?;
        let account = copy_of_told(self.alloc, account)?;
        let mut member = new_member(self.alloc, mapping, who, Ranks::none())?;
        let person = new_person(self.alloc, mapping, who)?;
        let number = self.people.number_for(&person.known.key);
        member.near = number;
        seat(self.alloc, &mut self.rooms, near, channel, member)?;
        name_person(self.alloc, &mut self.people, Some(number), person, account);
        Ok(())
    }

    /// Another's PART of a channel, or that another was kicked off it.
    #[tactic(auto, using(crate::proofs::ViewLemmas::tables))]
    pub(crate) fn part(&mut self, channel: &[u8], who: &[u8])
        ensures { view_kept self.new ≡ parted_view (view_kept self.old)
            (key_by self.old.support channel.now) (key_by self.old.support who.now) }
    {
        let mapping = self.support.mapping();
        let who = Sought::Name(mapping, who);
        let channel = Sought::Name(mapping, channel);
        if !unseat(self.alloc, &mut self.rooms, channel, who) {
            return;
        }
        if !self.rooms.is_seen(who) {
            let _ = self.people.remove(who);
        }
    }

    /// Another's QUIT.
    #[tactic(auto, using(crate::proofs::ViewLemmas::tables))]
    pub(crate) fn quit(&mut self, who: &[u8])
        ensures { view_kept self.new ≡ quitted_view (view_kept self.old) (key_by self.old.support
            who.now) }
    {
        let who = Sought::Name(self.support.mapping(), who);
        self.rooms.unseat_all(who);
        let _ = self.people.remove(who);
    }

    /// Our own PART of a channel, or that we were kicked off it. If we are not on it nothing
    /// changes, so long as everybody in sight is a member of some channel.
    #[tactic(auto, using(crate::proofs::ViewLemmas::tables, crate::proofs::ViewLemmas::left_stays))]
    pub(crate) fn leave(&mut self, channel: &[u8])
        ensures { IsKnowing (view_kept self.old) → view_kept self.new
            ≡ left_view (view_kept self.old) (key_by self.old.support channel.now) }
    {
        let channel = Sought::Name(self.support.mapping(), channel);
        if self.rooms.remove(channel).is_some() {
            retain_seen(&mut self.people, &self.rooms);
        }
    }

    /// Our own JOIN of a channel: we are its one member.
    #[tactic(auto, using(crate::proofs::ViewLemmas::tables, crate::proofs::ViewLemmas::entered_stays))]
    pub(crate) fn enter(
        &mut self,
        channel: &[u8],
        who: &[u8],
        account: Option<Option<&[u8]>>,
    ) -> Result<(), OutOfMemory>
        ensures taken { OnOk result (IsKnowing (view_kept self.old) → view_kept self.new
            ≡ entered_view (view_kept self.old) (key_by self.old.support channel.now) channel.now
            (key_by self.old.support who.now) who.now
            (option_map (option_map (λ t. t.now)) account.entry)) }
        ensures kept { OnErr result (view_kept self.new ≡ view_kept self.old) }
    {
        let mapping = self.support.mapping();
        self.rooms.reserve(1)?;
        self.people.reserve(1)?;
        let account = copy_of_told(self.alloc, account)?;
        let person = new_person(self.alloc, mapping, who)?;
        let room = fresh_room(self.alloc, mapping, channel, who)?;
        let mut near = None;
        let again = self
            .rooms
            .contains_near(&mut near, Sought::Name(mapping, channel));
        name_person(self.alloc, &mut self.people, None, person, account);
        self.rooms.insert_near(&mut near, room);
        if again {
            retain_seen(&mut self.people, &self.rooms);
        }
        Ok(())
    }

    /// A NICK that counts, ours or another's. Somebody not in sight is a member of no channel.
    #[tactic(auto, using(crate::proofs::ViewLemmas::tables, network_tables::proofs::SwapLemmas::freely_moved))]
    pub(crate) fn rename(&mut self, ours: bool, old: &[u8], new: &[u8]) -> Result<(), OutOfMemory>
        ensures taken { OnOk result (IsKnowing (view_kept self.old) → view_kept self.new
            ≡ renamed_view (view_kept self.old) ours (key_by self.old.support old.now)
            (key_by self.old.support new.now) new.now) }
        ensures kept { OnErr result (view_kept self.new ≡ view_kept self.old) }
    {
        let mapping = self.support.mapping();
        let key = mapping.key(self.alloc, new)?;
        let again = Vec::from_slice(self.alloc, &key)?;
        let nick = Vec::from_slice(self.alloc, new)?;
        let own = copy_of(self.alloc, ours.then_some(new))?;
        let old = Sought::Name(mapping, old);
        self.rooms
            .copies_for(self.alloc, old, &key, &mut self.copies)?;
        let taken = self.people.get(Sought::Key(&key)).is_some();
        self.rooms.rename_all(old, taken, &key, &mut self.copies);
        rename_person(&mut self.people, old, key, again, nick);
        if ours {
            self.own = own;
        }
        Ok(())
    }

    /// MODE.
    #[tactic(auto, using(network_tables::proofs::SwapLemmas::swaps))]
    pub(crate) fn take_mode<B: Allocator>(
        &mut self,
        channel: &[u8],
        line: &Line<B>,
    ) -> Result<(), OutOfMemory>
        ensures taken { OnOk result (HasSets (view_kept self.old) → IsKnowing (view_kept self.old) →
            view_kept self.new ≡ after_told (view_kept self.old) (Changed
            (key_by self.old.support channel.now) (letters_in self.old.support line.now)
            (modes_in self.old.support line.now))) }
        ensures kept { OnErr result (view_kept self.new ≡ view_kept self.old) }
    {
        let channel = Sought::Name(self.support.mapping(), channel);
        let mut near = None;
        let mut room = no_room(self.alloc);
        if self.rooms.swap(&mut near, channel, &mut room) {
            let changed = change_room(self.alloc, &mut room, &self.support, line);
            self.rooms.swap(&mut near, channel, &mut room);
            changed
        } else {
            Ok(())
        }
    }

    /// `324`.
    pub(crate) fn take_modes<B: Allocator>(
        &mut self,
        channel: &[u8],
        line: &Line<B>,
    ) -> Result<(), OutOfMemory>
        ensures taken { OnOk result (HasSets (view_kept self.old) → IsKnowing (view_kept self.old) →
            view_kept self.new ≡ after_told (view_kept self.old) (Listed
            (key_by self.old.support channel.now) (modes_in self.old.support line.now))) }
        ensures kept { OnErr result (view_kept self.new ≡ view_kept self.old) }
    {
        let channel = Sought::Name(self.support.mapping(), channel);
        let mut modes = Modes::new(self.alloc);
        change_modes(self.alloc, &mut modes, &self.support, line)?;
        set_modes(self.alloc, &mut self.rooms, channel, modes);
        Ok(())
    }

    /// `353`.
    #[tactic(auto, using(crate::proofs::ViewLemmas::tables, network_tables::proofs::SwapLemmas::swaps))]
    pub(crate) fn take_names<B: Allocator>(
        &mut self,
        channel: &[u8],
        line: &Line<B>,
    ) -> Result<(), OutOfMemory>
        ensures taken { OnOk result (view_kept self.new ≡ listed_view (view_kept self.old)
            (key_by self.old.support channel.now) (listings_in self.old.support line.now)) }
        ensures kept { OnErr result (view_kept self.new ≡ view_kept self.old) }
    {
        let channel = Sought::Name(self.support.mapping(), channel);
        let mut near = None;
        if !self.rooms.contains_near(&mut near, channel) {
            return Ok(());
        }
        let listed = listed_in(self.alloc, &self.support, line)?;
        self.people.reserve(listed.len())?;
        let mut room = no_room(self.alloc);
        self.rooms.swap(&mut near, channel, &mut room);
        match room.members.reserve(listed.len()) {
            Ok(()) => {
                keep_all(self.alloc, &mut room.members, &mut self.people, listed);
                self.rooms.swap(&mut near, channel, &mut room);
                Ok(())
            }
            Err(refused) => {
                self.rooms.swap(&mut near, channel, &mut room);
                Err(refused)
            }
        }
    }
}
