//! When a nick that another one had at the registration is asked for again.

ghost use Rattle.std.specs.Prelude.{◌≡◌, ◌+◌, ◌-◌, ◌*◌, ◌^◌, false, min};
ghost use Rattle.shell.specs.Regain.{IsAskedAt, begun, is_from, is_name, may_be_asked, names, news_of};
ghost use Rattle.shell.specs.Regain.{with_holder, with_news};

use irc_line::Line;
use irc_names::CaseMapping;

/// After how many milliseconds the nick is asked for first: a minute.
const FIRST: u64 = 60_000;

/// How many milliseconds lie between two tries at most: half an hour.
const MOST: u64 = 1_800_000;

/// After how many milliseconds it looks again if a connection of ours has the nick and stays.
const WHILE_IT_STAYS: u64 = 5_000;

/// After how many milliseconds it looks again if a connection of ours has the nick and leaves, and how
/// many lie between the first two tries after that.
const WHILE_IT_LEAVES: u64 = 1_000;

/// What becomes known of a nick that we want.
#[derive(Clone, Copy, Debug, PartialEq, Eq)]
pub enum NickNews {
    /// Nothing.
    Nothing,
    /// Its owner leaves, or takes another one.
    Freed,
    /// We have it.
    Ours,
    /// A client asked for a nick by itself.
    Chosen,
    /// The network will never give it to us.
    Never,
}

/// Which of ours has a nick that we want.
#[derive(Clone, Copy, Debug, PartialEq, Eq)]
pub enum Holder {
    /// None of ours.
    Nobody,
    /// A connection that stays.
    Stays,
    /// A connection that is about to end.
    Leaves,
}

/// When a nick is asked for.
#[derive(Clone, Copy, Debug, PartialEq, Eq)]
pub enum WhenAsked {
    /// It is not asked for any more.
    Never,
    /// Not for this many milliseconds.
    After(u64),
    /// Now.
    Now,
}

/// When a nick that another one had at the registration is asked for again: at once if its owner
/// leaves or takes another one in our sight, else after 1, 2, 4 minutes and so on, half an hour at
/// most; until it is ours, a client asks for a nick by itself, or the network says that it will
/// never give it. It is not asked for while a connection of ours has it, which does not make the next
/// try any later: once that one has left it is asked for at most 5 s later, and if it is not free yet
/// after 1, 2, 4 seconds and so on.
///
/// Times are milliseconds since any moment.
#[derive(Clone, Copy, Debug)]
pub struct Regain {
    // when it is asked for next, and how long after that again
    at: u64,
    rest: u64,
    // whether the network has shown that its owner left, and it was not asked for since
    is_freed: bool,
    is_over: bool,
}

/// Whether the line comes from the owner of this nick.
fn is_from(mapping: CaseMapping, nick: &[u8], line: &Line) -> bool
    ensures { result ≡ is_from mapping nick.now line.now }
{
    match line.source_nick() {
        Some(source) => mapping.order(source, nick).is_eq(),
        None => false,
    }
}

/// Whether the parameter at this place is the nick.
fn names(mapping: CaseMapping, nick: &[u8], place: usize, line: &Line) -> bool
    ensures { result ≡ names mapping nick.now place line.now }
{
    match line.param(place) {
        Some(name) => mapping.order(name, nick).is_eq(),
        None => false,
    }
}

/// What a line of the network says of a nick that we want: `Freed` if it is a QUIT or a NICK of its
/// owner, `Never` if it is a 432 for it.
pub fn news_of(mapping: CaseMapping, nick: &[u8], line: &Line) -> NickNews
    ensures { result ≡ news_of mapping nick.now line.now }
{
    if line.is(b"QUIT") {
        if is_from(mapping, nick, line) {
            return NickNews::Freed;
        }
    } else if line.is(b"NICK") {
        if is_from(mapping, nick, line) && !names(mapping, nick, 0, line) {
            return NickNews::Freed;
        }
    } else if line.is(b"432") && names(mapping, nick, 1, line) {
        return NickNews::Never;
    }
    NickNews::Nothing
}

impl Regain {
    /// The registration has ended now, under another nick, and this one of ours has the wanted one.
    pub fn start(holder: Holder, now: u64) -> Regain
        ensures { result ≡ with_holder holder now (begun now) }
    {
        let mut regain = Regain {
            at: now.saturating_add(FIRST),
            rest: FIRST * 2,
            is_freed: false,
            is_over: false,
        };
        regain.look(holder, now);
        regain
    }

    /// Takes which of ours has the nick when it is its turn. If that is one that leaves, it may be
    /// asked for as soon as the network has shown that this one left; otherwise it looks again
    /// after some seconds. Whether it may be asked for now.
    pub fn look(&mut self, holder: Holder, now: u64) -> bool
        ensures answer { result ≡ may_be_asked holder self.old.is_freed }
        ensures looked { self.new ≡ with_holder holder now self.old }
    {
        let wait = match holder {
            Holder::Nobody => return true,
            Holder::Leaves if self.is_freed => return true,
            Holder::Leaves => WHILE_IT_LEAVES,
            Holder::Stays => WHILE_IT_STAYS,
        };
        self.at = now.saturating_add(wait);
        self.rest = WHILE_IT_LEAVES;
        self.is_freed = false;
        false
    }

    /// What is to be done at this time.
    pub fn next(&self, now: u64) -> WhenAsked
        ensures { IsAskedAt self.now now result }
    {
        if self.is_over {
            return WhenAsked::Never;
        }
        if now < self.at {
            return WhenAsked::After(self.at - now);
        }
        WhenAsked::Now
    }

    /// Takes what has become known of the nick.
    pub fn note(&mut self, news: NickNews, now: u64)
        ensures { self.new ≡ with_news news now self.old }
    {
        match news {
            NickNews::Nothing => {}
            NickNews::Freed => {
                self.at = now;
                self.is_freed = true;
            }
            NickNews::Ours | NickNews::Chosen | NickNews::Never => self.is_over = true,
        }
    }

    /// It was asked for at this time: the next try is as much later as this one came after the one
    /// before it, twice over, half an hour at most.
    pub fn asked(&mut self, now: u64)
        ensures { self.new ≡ record self.old {
          at = min (now + self.old.rest) (2 ^ 64 - 1);
          rest = min (min (self.old.rest * 2) (2 ^ 64 - 1)) 1800000;
          is_freed = false;
        } }
    {
        self.at = now.saturating_add(self.rest);
        self.rest = self.rest.saturating_mul(2).min(MOST);
        self.is_freed = false;
    }
}
