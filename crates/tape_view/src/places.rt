//! What is at a place: the channels that we are on, and the members of one, in the order of
//! their keys.

ghost use Rattle.std.specs.Prelude.{◌≡◌, ◌<◌, ◌^◌, length, option_map};
ghost use Rattle.std.specs.Ordering.{is_lt};
ghost use Rattle.net_view.specs.Names.{bytes_cmp};
ghost use Rattle.net_view.specs.Named.{named};
ghost use Rattle.net_view.specs.Tells.{meant};
ghost use Rattle.net_view.specs.Least.{above, better, considered, improves, key_in, IsNext};
ghost use Rattle.tape_view.specs.Places.{keys_listed, names_in, is_there, key_at, table_len};
ghost use Rattle.tape_view.specs.Tape.{key};

use crate::tape::Tape;
use irc_line::Line;
use irc_names::is_nameable;
use irc_support::names;
use net_view::Telling;
use std::alloc::Allocator;

/// What has places: the channels that we are on, or the members of the channel of this name.
#[derive(Clone, Copy)]
pub(crate) enum Table<'a> {
    Channels,
    Members(&'a [u8]),
}

impl<'a, A: Allocator> Tape<'a, A> {
    /// Whether what has this name is in the table.
    fn is_there(&self, table: Table<'_>, name: &[u8]) -> bool
        ensures { result ≡ is_there self.now table.entry (key self.now name.now) }
    {
        match table {
            Table::Channels => self.name_on(name).is_some(),
            Table::Members(channel) => self.is_member(channel, name),
        }
    }

    /// Whether a name's key comes before another's.
    fn is_before(&self, a: &[u8], b: &[u8]) -> bool
        ensures { result ≡ is_lt (bytes_cmp (key self.now a.now) (key self.now b.now)) }
    {
        self.support().mapping().order(a, b).is_lt()
    }

    /// Whether a name's key comes after that of the one that was given, if any.
    fn is_above(&self, after: Option<&[u8]>, name: &[u8]) -> bool
        ensures { result
            ≡ above (key_in self.now.settings (option_map (λ a. a.now) after.entry))
            (key self.now name.now) }
    {
        match after {
            Some(after) => self.is_before(after, name),
            None => true,
        }
    }

    /// Whether a name's key comes before that of the best so far, if any.
    fn is_better(&self, best: Option<&[u8]>, name: &[u8]) -> bool
        ensures { result
            ≡ improves (key_in self.now.settings (option_map (λ b. b.now) best.entry))
            (key self.now name.now) }
    {
        match best {
            Some(best) => self.is_before(name, best),
            None => true,
        }
    }

    /// The best so far, or this name, if it is there, above the given one and before the best.
    fn better(
        &self,
        table: Table<'_>,
        after: Option<&[u8]>,
        best: Option<&'a [u8]>,
        name: &'a [u8],
    ) -> Option<&'a [u8]>
        ensures { key_in self.now.settings (option_map (λ n. n.now) result)
            ≡ better (is_there self.now table.entry)
            (key_in self.now.settings (option_map (λ a. a.now) after.entry))
            (key_in self.now.settings (option_map (λ b. b.now) best.entry))
            (key self.now name.now) }
    {
        if self.is_above(after, name) && self.is_better(best, name) && self.is_there(table, name) {
            Some(name)
        } else {
            best
        }
    }

    /// The best so far, or the best of the members that a 353 names.
    fn best_named(
        &self,
        table: Table<'_>,
        after: Option<&[u8]>,
        mut best: Option<&'a [u8]>,
        line: &'a Line<A>,
    ) -> Option<&'a [u8]>
        ensures { key_in self.now.settings (option_map (λ n. n.now) result)
            ≡ considered (is_there self.now table.entry)
            (key_in self.now.settings (option_map (λ a. a.now) after.entry))
            (key_in self.now.settings (option_map (λ b. b.now) best.entry))
            (keys_listed self.now.settings line.now) }
    {
        for (_ranks, name) in names(self.support(), line) {
            if is_nameable(name) {
                best = self.better(table, after, best, name);
            }
        }
        best
    }

    /// The best so far, or the best of what a line, which says this, names.
    fn best_told(
        &self,
        table: Table<'_>,
        after: Option<&[u8]>,
        best: Option<&'a [u8]>,
        telling: &Telling<'a, A>,
    ) -> Option<&'a [u8]>
        ensures { key_in self.now.settings (option_map (λ n. n.now) result)
            ≡ considered (is_there self.now table.entry)
            (key_in self.now.settings (option_map (λ a. a.now) after.entry))
            (key_in self.now.settings (option_map (λ b. b.now) best.entry))
            (names_in table.entry (meant self.now.settings telling.now)) }
    {
        match (table, telling) {
            (Table::Channels, Telling::Joined { channel, .. }) => self.better(
                table, after, best, channel,
            ),
            (Table::Members(_), Telling::Joined { who, .. } | Telling::Renamed { new: who, .. }) =>
                { self.better(table, after, best, who) }
            (Table::Members(_), Telling::Present { line, .. }) => {
                self.best_named(table, after, best, line)
            }
            _ => best,
        }
    }

    /// The name with the least key above the given one, among what is there.
    fn next(&self, table: Table<'_>, after: Option<&[u8]>) -> Option<&'a [u8]>
        ensures { IsNext (is_there self.now table.entry)
            (key_in self.now.settings (option_map (λ a. a.now) after.entry))
            (key_in self.now.settings (option_map (λ n. n.now) result)) }
    {
        let mut best = None;
        let mut tape = self.copy();
        while let Some((said, older)) = tape.split_last() {
            best = self.best_told(table, after, best, &said.telling);
            tape = older;
        }
        best
    }

    /// The name at a place, counted from 0, in the order of the keys.
    pub(crate) fn at(&self, table: Table<'_>, place: usize) -> Option<&'a [u8]>
        ensures { key_in self.now.settings (option_map (λ n. n.now) result)
            ≡ key_at self.now table.entry place }
    {
        let mut at = self.next(table, None);
        for _place in 0..place {
            let name = at?;
            at = self.next(table, Some(name));
        }
        at
    }

    /// How many there are.
    #[tactic(auto, using(crate::proofs::PlacedKeys::len_few, crate::proofs::PlacedKeys::table_places))]
    pub(crate) fn count(&self, table: Table<'_>) -> usize
        requires { length (named (names_in table) self.now.readings) < 2 ^ 64 }
        ensures { result ≡ table_len self.now table.entry }
    {
        let mut count = 0;
        let mut at = self.next(table, None);
        while let Some(name) = at {
            count += 1;
            at = self.next(table, Some(name));
        }
        count
    }
}
