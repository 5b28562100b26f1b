//! The place of a network in the settings.

/// A network's place: that of its user among the users, and its own among the user's networks, both
/// from 0 in the order of the file.
#[derive(Clone, Copy, Debug, PartialEq, Eq, Hash)]
pub struct Place {
    /// The place of the user.
    pub user: usize,
    /// The place among the user's networks.
    pub network: usize,
}
