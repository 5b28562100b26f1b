//! What a client logs in as.

ghost use Rattle.std.specs.Prelude.{◌≡◌, IfOk, option_map};
ghost use Rattle.sessions.specs.Claims.{claim_by, client_of, login_and_password, parts_of};

use crate::OutOfMemory;
use crate::given::copied;
use client_caps::Caps;
use irc_support::cut;
use std::alloc::Global;

/// What a client logs in as, by `PASS ann@pc/net:secret`, or by `USER ann@pc/net 0 * :Ann` and
/// `PASS secret`. Whether there is such a user and network, and whether the password is right, is
/// for the settings to say.
#[derive(Drop)]
pub struct Claim {
    /// The user's name, as `ann`.
    pub user: Vec<u8>,
    /// The client's name, as `pc`; never empty.
    pub client: Option<Vec<u8>>,
    /// The network's name, as `net`.
    pub network: Vec<u8>,
    /// The password, as `secret`.
    pub password: Vec<u8>,
    /// The capabilities that the client holds at the end of its login.
    pub caps: Caps,
}

/// The login and the password: those of a PASS with a colon, cut at its first, else the login of
/// USER and the whole of PASS.
fn login_and_password<'a>(user: &'a [u8], pass: &'a [u8]) -> (&'a [u8], &'a [u8])
    ensures login { result.0.now ≡ (login_and_password user.now pass.now).0 }
    ensures password { result.1.now ≡ (login_and_password user.now pass.now).1 }
{
    match cut(b':', pass) {
        (login, Some(password)) => (login, password),
        (_, None) => (user, pass),
    }
}

/// A client's name; an empty one is none.
fn client_of(name: Option<&[u8]>) -> Option<&[u8]>
    ensures { option_map (λ c. c.now) result ≡ client_of (option_map (λ n. n.now) name.entry) }
{
    match name {
        Some([]) | None => None,
        Some(name) => Some(name),
    }
}

impl Claim {
    /// The claim of a client that gave this login by USER and this PASS, and holds these
    /// capabilities; `None` if the login names no network.
    pub(crate) fn of(
        alloc: Global,
        user: &[u8],
        pass: &[u8],
        caps: Caps,
    ) -> Result<Option<Claim>, OutOfMemory>
        ensures { IfOk result (λ claim.
            option_map parts_of claim ≡ claim_by user.now pass.now caps) }
    {
        let (login, password) = login_and_password(user, pass);
        let (person, network) = cut(b'/', login);
        let Some(network) = network else {
            return Ok(None);
        };
        let (user, client) = cut(b'@', person);
        Ok(Some(Claim {
            user: Vec::from_slice(alloc, user)?,
            client: copied(alloc, client_of(client))?,
            network: Vec::from_slice(alloc, network)?,
            password: Vec::from_slice(alloc, password)?,
            caps,
        }))
    }
}
