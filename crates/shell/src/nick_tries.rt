//! Which nick a registration asks for, after others that the network did not take.

ghost use Rattle.std.specs.Prelude.{◌≡◌, ◌+◌, ◌-◌, ◌^◌, min};
ghost use Rattle.shell.specs.NickTries.{IsChoice};

/// The nick that a registration asks for.
#[derive(Clone, Copy, Debug, PartialEq, Eq)]
pub enum NickChoice {
    /// The wanted one.
    Wanted,
    /// The one at this place, from 0, of the further ones.
    Further(usize),
    /// The wanted one, cut, with two digits (`cut_nick`).
    Cut,
}

/// How often in succession a network did not take the nick of a registration: the next one asks for
/// the next nick. First comes the wanted one, then the further ones in their order, and after the last
/// of them the wanted one, cut, with other digits each time.
#[derive(Clone, Copy, Debug)]
pub struct NickTries {
    refused: u64,
}

impl NickTries {
    /// No registration was made.
    pub fn new() -> NickTries
        ensures { result.refused ≡ 0 }
    {
        NickTries { refused: 0 }
    }

    /// Which nick the next registration asks for, if there are this many further ones.
    pub fn next(&self, further: usize) -> NickChoice
        ensures { IsChoice self.now.refused further result }
    {
        if self.refused == 0 {
            return NickChoice::Wanted;
        }
        match usize::try_from(self.refused - 1) {
            Ok(place) if place < further => NickChoice::Further(place),
            _ => NickChoice::Cut,
        }
    }

    /// A registration ended since its nick was not taken.
    pub fn refused(&mut self)
        ensures { self.new.refused ≡ min (self.old.refused + 1) (2 ^ 64 - 1) }
    {
        self.refused = self.refused.saturating_add(1);
    }

    /// A registration ended with a welcome.
    pub fn welcomed(&mut self)
        ensures { self.new.refused ≡ 0 }
    {
        self.refused = 0;
    }
}
