//! Who is let in.

ghost use Rattle.std.specs.Prelude.{◌≡◌, ◌↔◌, ℕ, IfNone, IfSome, IsTrue, None, Some, map};
ghost use Rattle.std.specs.Prelude.{slice_get};
ghost use Rattle.bnc_config.specs.declared.place.Place as declared;
ghost use Rattle.sessions.specs.Admission.{Admits, IsUnknown};
ghost use Rattle.sessions.specs.Claims.{parts_of};

use crate::claim::Claim;
use bnc_config::{Config, Place};

/// The place of the network that a client claims; `None` if its password is not the one of the user
/// that it claims to be, if there is no such user, or if the user has no such network.
pub fn admitted(config: &Config, claim: &Claim) -> Option<Place>
    ensures { Admits config.now (parts_of claim.now) result }
{
    if !config.password_matches(claim.user.as_slice(), claim.password.as_slice()) {
        return None;
    }
    config.find(claim.user.as_slice(), claim.network.as_slice())
}

/// Whether these are one place.
fn is_same(a: Place, b: Place) -> bool
    ensures { IsTrue result ↔ (a ≡ b) }
{
    a.user == b.user && a.network == b.network
}

/// What a place is paired with, the first if it is there more than once; `None` exactly if
/// the place is not there.
fn network_at<N>(networks: &[(Place, N)], place: Place) -> Option<&N>
    ensures some { IfSome result (λ n. (number : ℕ)
        × (slice_get networks.now number ≡ Some (place, n.now))) }
    ensures none { IfNone result (IsUnknown (map (λ one. one.0) networks.now) place) }
{
    for one in networks {
        if is_same(one.0, place) {
            return Some(&one.1);
        }
    }
    None
}

/// The network that a client is let in to: what the place that it claims is paired with. `None`
/// if `admitted` knows no place, and if the place is not among these.
pub fn let_in<'a, N>(config: &Config, networks: &'a [(Place, N)], claim: &Claim) -> Option<&'a N>
    ensures some { IfSome result (λ n. (place : declared.Place) × (number : ℕ)
        × Admits config.now (parts_of claim.now) (Some place)
        × (slice_get networks.now number ≡ Some (place, n.now))) }
    ensures none { IfNone result ((place : declared.Place) →
        Admits config.now (parts_of claim.now) (Some place) →
        IsUnknown (map (λ one. one.0) networks.now) place) }
{
    let place = admitted(config, claim)?;
    network_at(networks, place)
}
