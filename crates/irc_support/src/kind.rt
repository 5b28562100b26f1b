//! The kinds of channel modes (`CHANMODES`; isupport draft, section 3.3).

ghost use Rattle.std.specs.Prelude.{◌≡◌};

/// The kind of a mode letter, which says when it takes a parameter.
#[derive(Clone, Copy, Debug, PartialEq, Eq)]
pub enum Kind {
    /// A letter of `PREFIX`, which gives a member a rank: always with a parameter, the nick.
    Prefix,
    /// A list, as of bans: always with a parameter. None when a client asks for the list.
    A,
    /// A setting with a parameter, set and unset.
    B,
    /// A setting with a parameter only when it is set.
    C,
    /// A setting without a parameter.
    D,
    /// A letter that the network did not name. It is taken to have no parameter.
    Unknown,
}

impl Kind {
    ghost use Rattle.irc_support.specs.ChanModes.{takes_parameter};

    /// Whether a letter of this kind takes a parameter when it is set (`plus`) or unset.
    pub fn takes_parameter(self, plus: bool) -> bool
        ensures { result ≡ takes_parameter self plus }
    {
        match self {
            Kind::Prefix | Kind::A | Kind::B => true,
            Kind::C => plus,
            Kind::D | Kind::Unknown => false,
        }
    }
}
