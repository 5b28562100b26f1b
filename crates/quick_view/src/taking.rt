//! What each line changes.

use crate::OutOfMemory;
use crate::state::State;
use irc_line::Line;
use net_view::{StateCommand, Telling, told_as};
use std::alloc::Allocator;

impl<A: Allocator + Copy> State<A> {
    ghost use Rattle.std.specs.Prelude.{◌≡◌, Some, List, OnOk, OnErr, codes, true};
    ghost use Rattle.std.specs.Option.{option_map};
    ghost use Rattle.irc_line.specs.Line.{has_command};
    ghost use Rattle.irc_support.specs.Settings.{key_by, is_channel};
    ghost use Rattle.net_view.specs.Arrival.{Received};
    ghost use Rattle.net_view.specs.Names.{name_of};
    ghost use Rattle.net_view.specs.Sound.{IsSound};
    ghost use Rattle.net_view.specs.StateCommands.{state_command};
    ghost use Rattle.net_view.specs.StateLines.{told};
    ghost use Rattle.net_view.specs.Changes.{readied, joined_view};
    ghost use Rattle.net_view.specs.Step.{after_told};
    ghost use Rattle.net_view.specs.Told.{Supports, Joined, Parted, Quits, Renamed};
    ghost use Rattle.net_view.specs.MemberSets.{HasSets};
    ghost use Rattle.quick_view.specs.Kept.{view_kept};

    /// `005`.
    fn take_supports<B: Allocator>(&mut self, line: &Line<B>) -> Result<(), OutOfMemory>
        requires { has_command line.now (codes "005") ≡ true }
        ensures taken { OnOk result (IsSound (view_kept self.old) → HasSets (view_kept self.old) →
            view_kept self.new ≡ after_told (view_kept self.old) (Supports line.now.params)) }
        ensures kept { OnErr result (view_kept self.new ≡ view_kept self.old) }
    {
        // one question at a time, here and at a JOIN, since each answer has a law of its own
        let welcomed = self.own.is_some();
        if !welcomed {
            return Ok(());
        }
        if self.ready {
            return Ok(());
        }
        self.support.take(line)
    }

    /// A JOIN that begins no channel.
    fn join_and_settle(
        &mut self,
        channel: &[u8],
        who: &[u8],
        account: Option<Option<&[u8]>>,
    ) -> Result<(), OutOfMemory>
        ensures taken { OnOk result (view_kept self.new ≡ readied (joined_view (view_kept self.old)
            (key_by self.old.support channel.now) (key_by self.old.support who.now) who.now
            (option_map (option_map (λ t. t.now)) account.entry))) }
        ensures kept { OnErr result (view_kept self.new ≡ view_kept self.old) }
    {
        self.join(channel, who, account)?;
        self.settle();
        Ok(())
    }

    /// JOIN.
    fn take_join(
        &mut self,
        channel: &[u8],
        who: &[u8],
        account: Option<Option<&[u8]>>,
    ) -> Result<(), OutOfMemory>
        ensures taken { OnOk result (IsSound (view_kept self.old) → HasSets (view_kept self.old) →
            view_kept self.new ≡ after_told (view_kept self.old) (Joined
            (name_of self.old.support channel.now) (is_channel self.old.support channel.now)
            (name_of self.old.support who.now)
            (option_map (option_map (λ t. t.now)) account.entry))) }
        ensures kept { OnErr result (view_kept self.new ≡ view_kept self.old) }
    {
        if !self.is_us(who) {
            return self.join_and_settle(channel, who, account);
        }
        if !self.support.is_channel(channel) {
            return self.join_and_settle(channel, who, account);
        }
        self.enter(channel, who, account)?;
        self.settle();
        Ok(())
    }

    /// PART and KICK.
    fn take_part(&mut self, channel: &[u8], who: &[u8])
        ensures { IsSound (view_kept self.old) → HasSets (view_kept self.old) →
            view_kept self.new ≡ after_told (view_kept self.old)
            (Parted (key_by self.old.support channel.now) (key_by self.old.support who.now)) }
    {
        if self.is_us(who) {
            self.leave(channel);
        } else {
            self.part(channel, who);
        }
    }

    /// QUIT.
    fn take_quit(&mut self, who: &[u8])
        ensures { IsSound (view_kept self.old) → HasSets (view_kept self.old) →
            view_kept self.new ≡ after_told (view_kept self.old)
            (Quits (key_by self.old.support who.now)) }
    {
        if self.is_us(who) {
            self.lose();
        } else {
            self.quit(who);
        }
    }

    /// NICK.
    fn take_nick(&mut self, old: &[u8], new: &[u8]) -> Result<(), OutOfMemory>
        ensures taken { OnOk result (IsSound (view_kept self.old) → HasSets (view_kept self.old) →
            view_kept self.new ≡ after_told (view_kept self.old)
            (Renamed (key_by self.old.support old.now) (name_of self.old.support new.now))) }
        ensures kept { OnErr result (view_kept self.new ≡ view_kept self.old) }
    {
        if self.is_us(old) {
            return self.rename(true, old, new);
        }
        if self.is_us(new) {
            return Ok(());
        }
        self.rename(false, old, new)
    }

    /// Takes a state line of this command.
    pub(crate) fn take_line<B: Allocator>(
        &mut self,
        command: StateCommand,
        line: &Line<B>,
    ) -> Result<(), OutOfMemory>
        requires { state_command line.now ≡ Some command }
        ensures taken { OnOk result (IsSound (view_kept self.old) → HasSets (view_kept self.old) →
            view_kept self.new ≡ after_told (view_kept self.old)
            (told self.old.support (Received line.now))) }
        ensures kept { OnErr result (view_kept self.new ≡ view_kept self.old) }
    {
        match told_as(command, line) {
            Telling::Silent => Ok(()),
            Telling::Welcomed { nick } => self.welcome(nick),
            Telling::Supports { .. } => self.take_supports(line),
            Telling::Settles => {
                self.settle();
                Ok(())
            }
            Telling::Joined {
                channel,
                who,
                account,
            } => self.take_join(channel, who, account),
            Telling::Parted { channel, who } => {
                self.take_part(channel, who);
                Ok(())
            }
            Telling::Kicked { channel, who } => {
                self.take_part(channel, who);
                Ok(())
            }
            Telling::Quits { who } => {
                self.take_quit(who);
                Ok(())
            }
            Telling::Renamed { old, new } => self.take_nick(old, new),
            Telling::Changed { channel, line } => self.take_mode(channel, line),
            Telling::Listed { channel, line } => self.take_modes(channel, line),
            Telling::Titled { channel, topic } => self.take_topic(channel, topic),
            Telling::Present { channel, line } => self.take_names(channel, line),
            Telling::HasAccount { who, account } => self.take_account(who, account),
            Telling::IsAway { who, text } => self.take_away(who, text),
        }
    }
}
