//! A connection to the network that is lost and comes again.

use crate::hub_rows::STORY;
use crate::hub_rows::scripts::{Story, check_over_both_views};
use std::test::Fail;

pub(crate) const A_LOSS_WITH_TWO_CHANNELS: [&[u8]; 7] = [
    b"up :Me!m@h JOIN #b",
    b"attach - - 8",
    b"piece :s 001 Yo",
    b"lost",
    b"said 0 PRIVMSG x y",
    b"up :t 001 You :hi",
    b"attach - - 8",
];

pub(crate) const A_LOSS_WITH_TWO_CHANNELS_WANTED: [&[u8]; 7] = [
    b"session 0",
    b"offline",
    b"not ready",
    b":Me PART #b",
    b":Me PART #c",
    b":t 001 You hi",
    b"packets 2 1",
];

/// A loss parts us from all channels in one packet; half a line before it is dropped.
#[test]
fn a_loss_with_two_channels(rt: HostRuntime) -> Result<(), Fail> {
    check_over_both_views(
        &rt,
        Story { of: 0, ..STORY },
        &A_LOSS_WITH_TWO_CHANNELS,
        &A_LOSS_WITH_TWO_CHANNELS_WANTED,
    )
}
