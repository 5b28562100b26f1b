//! A view that keeps the state lines and looks back through them.

ghost use Rattle.std.specs.Prelude.{◌≡◌, [], IfOk};

use crate::bytes::kept_bytes;
use crate::facts::Fact;
use crate::kept::{Kept, fixed_after, marks_of, own_in, ready_in, take_settings};
use crate::name_count::with_named;
use crate::places::Table;
use crate::tape::Tape;
use irc_line::Line;
use irc_names::is_nameable;
use irc_support::Support;
use net_view::{Channel, Item, Member, NetworkView, OutOfMemory, StateCommand, Telling, told_as};
use std::alloc::{Allocator, Global};
use std::marker::Model;
use weights::{Weighed, more};

/// A view that keeps the state lines in a list, and searches them backwards. A loss of the
/// connection is a mark beside the last kept line.
///
/// Readers take no memory. They are slow: the time of one by place grows with a power of the number
/// of the kept lines, and that of `take` of a state line with their number. All lines are kept,
/// however long the network is connected.
#[derive(Drop)]
pub struct TapeView<A: Allocator = Global> {
    kept: Vec<Kept<A>, A>,
    // the settings in force
    support: Support<A>,
    // how many names of channels and persons the kept lines bring up
    names: usize,
}

impl<A: Allocator> Model for TapeView<A> {
    ghost use Rattle.std.specs.Prelude.{List};
    ghost use Rattle.net_view.specs.Arrival.{Arrival};
    ghost use Rattle.tape_view.specs.Kept.{tape_of};
    ghost use Rattle.tape_view.specs.Whole.{IsWhole};

    ghost Value = { List Arrival };

    ghost view = { λ v. tape_of v.kept.items };

    ghost invariant = { λ v. IsWhole v.kept.items v.support v.names };
}

impl<A: Allocator + Copy> TapeView<A> {
    /// A view to which nothing came.
    pub fn new(alloc: A) -> Result<TapeView<A>, OutOfMemory>
        ensures { IfOk result (λ v. v ≡ []) }
    {
        let support = Support::new(alloc)?;
        Ok(TapeView {
            kept: Vec::new(alloc),
            support,
            names: 0,
        })
    }
}

impl<A: Allocator + Copy> TapeView<A> {
    ghost use Rattle.std.specs.Prelude.{◌≡◌, ◌<◌, ◌^◌, List, ◌∷◌, Some, false, length};
    ghost use Rattle.std.specs.Prelude.{IfOk, OnOk, OnErr, IsTrue};
    ghost use Rattle.net_view.specs.StateCommands.{state_command};
    ghost use Rattle.irc_line.specs.Writing.{is_writable};
    ghost use Rattle.irc_support.specs.Tokens.{Token};
    ghost use Rattle.net_view.specs.StateLines.{told};
    ghost use Rattle.net_view.specs.Tells.{meant};
    ghost use Rattle.tape_view.specs.Kept.{IsMarkedLine};
    ghost use Rattle.net_view.specs.Arrival.{Received};
    ghost use Rattle.net_view.specs.Named.{named};
    ghost use Rattle.tape_view.specs.Tape.{heard};
    ghost use Rattle.tape_view.specs.Places.{names_in};

    /// The kept lines, as the settings in force read them.
    fn tape(&self) -> Tape<'_, A>
        ensures value { result ≡ heard self.now }
        ensures few { (table : Table) → length (named (names_in table) result.readings) < 2 ^ 64 }
    {
        Tape::new(&self.support, &self.kept)
    }

    /// A state line of this command, which says this, as it is to be kept.
    fn to_keep<B: Allocator>(
        &self,
        command: StateCommand,
        line: &Line<B>,
        telling: &Telling<'_, B>,
    ) -> Result<Kept<A>, OutOfMemory>
        requires command { state_command line.now ≡ Some command }
        requires told { (settings : List Token) →
            meant settings telling.now ≡ told settings (Received line.now) }
        ensures line { IfOk result (λ kept. (kept.line ≡ line.now) × (kept.lost ≡ false)) }
        ensures marked { IfOk result (λ kept. IsMarkedLine self.now kept) }
    {
        let own = own_in(&self.kept);
        let marks = marks_of(&self.support, telling, own);
        let fixed = fixed_after(telling, own, ready_in(&self.kept));
        let line = line.copy_in(*self.kept.allocator())?;
        Ok(Kept {
            command,
            line,
            marks,
            fixed,
            lost: false,
        })
    }

    /// Keeps a line of this command, which can be written.
    #[tactic(auto, using(crate::proofs::TapeLast::tape_push))]
    fn keep<B: Allocator>(
        &mut self,
        command: StateCommand,
        line: &Line<B>,
    ) -> Result<(), OutOfMemory>
        requires command { state_command line.now ≡ Some command }
        requires writable { IsTrue (is_writable line.now) }
        ensures taken { OnOk result (self.new ≡ Received line.now ∷ self.old) }
        ensures kept { OnErr result (self.new ≡ self.old) }
    {
        let telling = told_as(command, line);
        let names = with_named(&self.support, &telling, self.names).ok_or(OutOfMemory)?;
        self.kept.reserve(1)?;
        let kept = self.to_keep(command, line, &telling)?;
        let alloc = *self.kept.allocator();
        take_settings(alloc, &mut self.support, &self.kept, &telling, line)?;
        self.kept.push_reserved(kept);
        self.names = names;
        Ok(())
    }
}

impl<A: Allocator + Copy> NetworkView for TapeView<A> {
    ghost use Rattle.net_view.specs.View.{view_back};

    ghost view = { view_back };

    type Memory = A;

    #[tactic(auto, using(crate::proofs::TapeTake::loss_of_nothing, crate::proofs::TapeTake::loss_taken, net_view::proofs::StepLaw::view_back_step, net_view::proofs::StepLaw::view_step))]
    fn take<B: Allocator>(&mut self, item: &Item<B>) -> Result<(), OutOfMemory> {
        match item {
            Item::Line(line) => {
                if let Some(command) = StateCommand::of(line) {
                    self.keep(command, line)?;
                }
            }
            Item::Lost => {
                if !self.kept.is_empty() {
                    let last = self.kept.len() - 1;
                    self.kept[last].lost = true;
                }
            }
        }
        Ok(())
    }

    #[tactic(auto, using(crate::proofs::TapeTake::from_lines))]
    fn comes_from_lines(&self) {
        let _kept = &self.kept;
    }

    fn welcomed(&self) -> bool {
        own_in(&self.kept).is_some()
    }

    fn ready(&self) -> bool {
        ready_in(&self.kept)
    }

    fn support(&self) -> &Support<A> {
        &self.support
    }

    fn own(&self) -> Option<&[u8]> {
        own_in(&self.kept)
    }

    fn channel_count(&self) -> usize {
        self.tape().count(Table::Channels)
    }

    #[tactic(auto, using(crate::proofs::Readers::shown_on))]
    fn channel_at(&self, i: usize) -> Option<Channel<'_>> {
        let tape = self.tape();
        let channel = tape.at(Table::Channels, i)?;
        let name = tape.name_on(channel)?;
        let topic = tape.topic(channel);
        Some(Channel { name, topic })
    }

    #[tactic(auto, using(crate::proofs::Readers::shown_on))]
    fn mode_at(&self, i: usize, j: usize) -> Option<(u8, Option<&[u8]>)> {
        let tape = self.tape();
        let channel = tape.at(Table::Channels, i)?;
        let letter = tape.letter_at(channel, j)?;
        let param = tape.mode(channel, letter)?;
        Some((letter, param))
    }

    fn member_count(&self, i: usize) -> usize {
        let tape = self.tape();
        match tape.at(Table::Channels, i) {
            Some(channel) => tape.count(Table::Members(channel)),
            None => 0,
        }
    }

    #[tactic(auto, using(crate::proofs::Readers::shown_on))]
    fn member_at(&self, i: usize, j: usize) -> Option<Member<'_>> {
        let tape = self.tape();
        let channel = tape.at(Table::Channels, i)?;
        let member = tape.at(Table::Members(channel), j)?;
        let nick = tape.fact(member, Fact::Nick)?;
        let account = tape.fact(member, Fact::Account);
        let away = tape.fact(member, Fact::Away);
        let ranks = tape.ranks(channel, member);
        Some(Member {
            nick,
            ranks,
            account,
            away,
        })
    }

    #[tactic(auto, using(net_view::proofs::Accounts::account_named, net_view::proofs::People::people_get, net_view::proofs::People::account_field))]
    fn account_of(&self, nick: &[u8]) -> Option<&[u8]> {
        if !is_nameable(nick) {
            return None;
        }
        self.tape().fact(nick, Fact::Account)
    }
}

impl<A: Allocator> Weighed for TapeView<A> {
    ghost use Rattle.tape_view.specs.Weights.{tape_bytes};

    ghost weight = { tape_bytes };

    /// Counted anew at each call: it goes over all kept lines.
    fn weight(&self) -> u64 {
        more(kept_bytes(&self.kept), self.support.weight())
    }
}
