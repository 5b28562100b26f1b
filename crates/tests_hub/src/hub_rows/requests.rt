//! Lines of a client that the bouncer answers itself, and capabilities that change in a session.

use crate::hub_rows::STORY;
use crate::hub_rows::scripts::{Story, check};
use std::test::Fail;

/// Shown is what the first session is sent after its burst.
const OF_THE_FIRST: Story = Story { of: 0, ..STORY };

const LINES_THAT_ARE_ANSWERED: [&[u8]; 8] = [
    b"attach - - 8",
    b"said 0 CAP REQ :batch",
    b"said 0 CAP LIST",
    b"said 0 PING a b",
    b"said 0 PONG x",
    b"said 0 CAP END",
    b"said 0 QUIT :bye",
    b"detach 99",
];

const LINES_THAT_ARE_ANSWERED_WANTED: [&[u8]; 14] = [
    b"session 0",
    b"answered",
    b"answered",
    b"answered",
    b"answered",
    b"answered",
    b"quit",
    b"no session",
    b":bnc CAP Me ACK batch",
    b":bnc 353 Me = #c Me",
    b":bnc 366 Me #c :End of NAMES list",
    b":bnc CAP Me LIST batch",
    b":bnc PONG bnc a",
    b"packets 3 1 1",
];

/// The bouncer answers CAP and PING itself; PONG, CAP END and QUIT go to nobody.
#[test]
fn lines_that_are_answered(rt: HostRuntime) -> Result<(), Fail> {
    check(
        &rt,
        OF_THE_FIRST,
        &LINES_THAT_ARE_ANSWERED,
        &LINES_THAT_ARE_ANSWERED_WANTED,
    )
}

const CAPABILITIES_THAT_CHANGE: [&[u8]; 9] = [
    b"up :s 353 Me = #c :Me @+bob",
    b"up :bob!b@h ACCOUNT bobacc",
    b"attach - - 8",
    b"said 0 CAP REQ :multi-prefix account-notify extended-join",
    b"said 0 CAP REQ -multi-prefix",
    b"said 0 CAP REQ -multi-prefix",
    b"said 0 CAP REQ sasl",
    b"up :s MODE #c -o bob",
    b"said 0 CAP REQ -multi-prefix",
];

const CAPABILITIES_THAT_CHANGE_WANTED: [&[u8]; 21] = [
    b"session 0",
    b"answered",
    b"answered",
    b"answered",
    b"answered",
    b"answered",
    b":bnc CAP Me ACK :multi-prefix account-notify extended-join",
    b":bnc 353 Me = #c :@+bob Me",
    b":bnc 366 Me #c :End of NAMES list",
    b":bob ACCOUNT bobacc",
    b":Me ACCOUNT *",
    b":bnc CAP Me ACK -multi-prefix",
    b":bnc 353 Me = #c :@bob Me",
    b":bnc 366 Me #c :End of NAMES list",
    b":bob ACCOUNT bobacc",
    b":Me ACCOUNT *",
    b":bnc CAP Me ACK -multi-prefix",
    b":bnc CAP Me NAK sasl",
    b":s MODE #c -o bob",
    b":bnc CAP Me ACK -multi-prefix",
    b"packets 5 5 1 1 1 1",
];

/// Capabilities that change are followed by a catch-up in the same packet, others by none.
#[test]
fn capabilities_that_change(rt: HostRuntime) -> Result<(), Fail> {
    check(
        &rt,
        OF_THE_FIRST,
        &CAPABILITIES_THAT_CHANGE,
        &CAPABILITIES_THAT_CHANGE_WANTED,
    )
}

const AN_ACCOUNT_THAT_WENT_UNSEEN: [&[u8]; 7] = [
    b"up :s 353 Me = #c :Me @+bob",
    b"up :bob!b@h ACCOUNT bobacc",
    b"attach - - 8",
    b"said 0 CAP REQ :multi-prefix account-notify extended-join",
    b"said 0 CAP REQ -account-notify",
    b"up :bob!b@h ACCOUNT *",
    b"said 0 CAP REQ account-notify",
];

const AN_ACCOUNT_THAT_WENT_UNSEEN_WANTED: [&[u8]; 18] = [
    b"session 0",
    b"answered",
    b"answered",
    b"answered",
    b":bnc CAP Me ACK :multi-prefix account-notify extended-join",
    b":bnc 353 Me = #c :@+bob Me",
    b":bnc 366 Me #c :End of NAMES list",
    b":bob ACCOUNT bobacc",
    b":Me ACCOUNT *",
    b":bnc CAP Me ACK -account-notify",
    b":bnc 353 Me = #c :@+bob Me",
    b":bnc 366 Me #c :End of NAMES list",
    b":bnc CAP Me ACK account-notify",
    b":bnc 353 Me = #c :@+bob Me",
    b":bnc 366 Me #c :End of NAMES list",
    b":bob ACCOUNT *",
    b":Me ACCOUNT *",
    b"packets 5 3 5",
];

/// A client that did not see a logout learns of it when it asks for accounts again.
#[test]
fn an_account_that_went_unseen(rt: HostRuntime) -> Result<(), Fail> {
    check(
        &rt,
        OF_THE_FIRST,
        &AN_ACCOUNT_THAT_WENT_UNSEEN,
        &AN_ACCOUNT_THAT_WENT_UNSEEN_WANTED,
    )
}

const REQUESTS_WITHOUT_TAGS: [&[u8]; 3] = [
    b"attach server-time - 8",
    b"said 0 CAP REQ",
    b"said 0 CAP REQ batch",
];

const REQUESTS_WITHOUT_TAGS_WANTED: [&[u8]; 8] = [
    b"session 0",
    b"answered",
    b"answered",
    b":bnc CAP Me ACK :",
    b":bnc CAP Me ACK batch",
    b":bnc 353 Me = #c Me",
    b":bnc 366 Me #c :End of NAMES list",
    b"packets 1 3",
];

/// A request without a name is granted, and neither ACK nor catch-up has a tag.
#[test]
fn requests_without_tags(rt: HostRuntime) -> Result<(), Fail> {
    check(
        &rt,
        OF_THE_FIRST,
        &REQUESTS_WITHOUT_TAGS,
        &REQUESTS_WITHOUT_TAGS_WANTED,
    )
}
