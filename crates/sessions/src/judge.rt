//! Who says whether a claim is right.

ghost use Rattle.std.specs.Prelude.{◌≡◌, IfNone, IfSome};
ghost use Rattle.sessions.specs.Claims.{ClaimParts, parts_of};

use crate::admission::let_in;
use crate::claim::Claim;
use bnc_config::{Config, Place};

/// Who says whether a claim is right, for instance by the settings of now. `N` stands for a network
/// that is served.
pub trait Judge<N> {
    // It may let in who claims this.
    ghost lets_in: { Self → ClaimParts → Type 0 };

    // It may deny who claims this.
    ghost denies: { Self → ClaimParts → Type 0 };

    /// The network that a client is let in to; `None` if its password is wrong, or if it claims a
    /// network that is not served.
    fn judge(&self, claim: &Claim) -> Option<&N>
        ensures some { IfSome result (λ _. lets_in self.now (parts_of claim.now)) }
        ensures none { IfNone result (denies self.now (parts_of claim.now)) };
}

/// Settings, and the networks that are served, each beside its place in them. A place that is not
/// there is that of an unknown network.
#[derive(Clone, Copy)]
pub struct Listed<'a, N> {
    /// The settings.
    pub config: &'a Config,
    /// The networks.
    pub networks: &'a [(Place, N)],
}

impl<'a, N> Judge<N> for Listed<'a, N> {
    ghost use Rattle.std.specs.Prelude.{map};
    ghost use Rattle.sessions.specs.Admission.{IsLetIn};

    ghost lets_in = { λ j claim. IsLetIn j.config.now (map (λ one. one.0) j.networks.now) claim };

    ghost denies = { λ j claim. IsLetIn j.config.now (map (λ one. one.0) j.networks.now) claim → ⊥ };

    fn judge(&self, claim: &Claim) -> Option<&N> {
        let_in(self.config, self.networks, claim)
    }
}
