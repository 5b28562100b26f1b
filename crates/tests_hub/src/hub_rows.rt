//! Scripts of events over a hub: the answer to each event, and what clients and the network are
//! sent.

mod between;
pub(crate) mod events;
mod garden;
mod images;
mod keys;
pub(crate) mod limits;
pub(crate) mod losses;
pub(crate) mod messages;
pub(crate) mod replies;
mod requests;
pub(crate) mod scripts;
mod state_parts;
mod vanished;

use crate::hub_rows::scripts::Story;
use hub_core::Setup;
use test_texts::GREETING;

/// The burst of a client without capabilities, after a welcome and our own JOIN.
pub(crate) const BURST: [&[u8]; 6] = [
    GREETING,
    b":bnc 005 Me PREFIX=(ov)@+ CHANTYPES=# :are supported by this server",
    b":bnc 422 Me :MOTD File is missing",
    b":Me JOIN #c",
    b":bnc 353 Me = #c Me",
    b":bnc 366 Me #c :End of NAMES list",
];

/// What a hub starts with: three messages are kept.
pub(crate) const SETUP: Setup = Setup {
    history: 3,
    first_number: 1,
    first_session: 0,
};

/// Shown is what the second session is sent after its burst.
pub(crate) const STORY: Story = Story {
    setup: SETUP,
    upstream: 8,
    of: 1,
    is_gone: false,
    from: 1,
    images: false,
};
