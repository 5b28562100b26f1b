//! Channels as both views show them: topics, modes, and the ranks of members.

use crate::views::check_rows;
use std::test::Fail;

const TOPICS: [(&[u8], &[u8]); 12] = [
    (b":s 001 Me :hi", b"Me"),
    (b":s 332 Me #c :early", b"Me"),
    (b":Me!m@h JOIN #c", b"Me / #c Me"),
    (b":s 332 Me #C :Hello all", b"Me / #c [Hello all] Me"),
    (b":bob!b@h TOPIC #c", b"Me / #c [Hello all] Me"),
    (b":bob!b@h TOPIC #d :other", b"Me / #c [Hello all] Me"),
    (b":bob!b@h JOIN #c", b"Me / #c [Hello all] bob Me"),
    (b":s 331 Me #c :No topic is set", b"Me / #c bob Me"),
    (b":bob!b@h TOPIC #c :new", b"Me / #c [new] bob Me"),
    (b":bob!b@h TOPIC #c :", b"Me / #c bob Me"),
    (b":bob!b@h TOPIC #c :newer", b"Me / #c [newer] bob Me"),
    // a JOIN of ours begins the channel anew
    (b":Me!m@h JOIN #c", b"Me / #c Me"),
];

#[test]
fn topics(rt: HostRuntime) -> Result<(), Fail> {
    check_rows(&rt, &TOPICS)
}

const MODES_IN_THE_ORDER_OF_THEIR_LETTERS: [(&[u8], &[u8]); 15] = [
    (b":s 001 Me :hi", b"Me"),
    (b":s 376 Me :end", b"Me"),
    (b":s MODE #c +m", b"Me"),
    (b":Me!m@h JOIN #c", b"Me / #c Me"),
    (b":s MODE #c +tkn key", b"Me / #c {kkey n t} Me"),
    (b":s MODE #C +lv-t 5 me", b"Me / #c {kkey l5 n} +Me"),
    (b":s MODE #c +l 7", b"Me / #c {kkey l7 n} +Me"),
    (b":s MODE #d +s", b"Me / #c {kkey l7 n} +Me"),
    (b":s MODE #c -l+b-k x!*@* key", b"Me / #c {n} +Me"),
    (b":s MODE #c +k :a b", b"Me / #c {n} +Me"),
    (b":s 324 Me #c +il 3", b"Me / #c {i l3} +Me"),
    (b":s MODE #c +zxZs", b"Me / #c {i l3 s} +Me"),
    (b":s 324 Me #c", b"Me / #c +Me"),
    (b":s MODE #c +i-i+i", b"Me / #c {i} +Me"),
    (b":Me!m@h JOIN #c", b"Me / #c Me"),
];

#[test]
fn modes_in_the_order_of_their_letters(rt: HostRuntime) -> Result<(), Fail> {
    check_rows(&rt, &MODES_IN_THE_ORDER_OF_THEIR_LETTERS)
}

const A_KEY_THAT_IS_SET_AND_UNSET: [(&[u8], &[u8]); 11] = [
    (b":s 001 Me :hi", b"Me"),
    (b":Me!m@h JOIN #c", b"Me / #c Me"),
    (b":s MODE #c +nt", b"Me / #c {n t} Me"),
    (b":s 324 Me #c +k key", b"Me / #c {kkey} Me"),
    (b":s MODE #c -k", b"Me / #c {kkey} Me"),
    (b":s MODE #c -k x", b"Me / #c Me"),
    (b":bob!b@h JOIN #c", b"Me / #c bob Me"),
    (b":s MODE #c +lo 5 bob", b"Me / #c {l5} @bob Me"),
    (b":s MODE #c -l+v bob", b"Me / #c @+bob Me"),
    (b":bob!b@h NICK rob", b"Me / #c Me @+rob"),
    (b":s MODE #c -o rob", b"Me / #c Me +rob"),
];

/// Modes of a 324 and a MODE together, and a key that is taken away with and without its word.
#[test]
fn a_key_that_is_set_and_unset(rt: HostRuntime) -> Result<(), Fail> {
    check_rows(&rt, &A_KEY_THAT_IS_SET_AND_UNSET)
}

const RANKS_AND_NAME_LISTS: [(&[u8], &[u8]); 17] = [
    (b":s 001 Me :hi", b"Me"),
    (b":s 005 Me PREFIX=(ov)@+ CHANTYPES=# :are supported", b"Me"),
    (b":s 353 Me = #c :bob", b"Me"),
    (b":Me!m@h JOIN #c", b"Me / #c Me"),
    (
        b":s 353 Me = #c :Me @+Bob!b@h +eve ~no @",
        b"Me / #c @+Bob +eve Me",
    ),
    (b":s 353 Me = #d :zoe", b"Me / #c @+Bob +eve Me"),
    (b":bob!b@h NICK rob", b"Me / #c +eve Me @+rob"),
    (b":bob!b@h JOIN #c", b"Me / #c bob +eve Me @+rob"),
    (
        b":s MODE #c -o+v-v rob bob eve",
        b"Me / #c +bob eve Me +rob",
    ),
    (b":s MODE #c -v+o Rob", b"Me / #c +bob eve Me rob"),
    (
        b":s MODE #c +v-v+v rob rob rob",
        b"Me / #c +bob eve Me +rob",
    ),
    (
        b":s 353 Me = #c :@eve bob +bob @bob",
        b"Me / #c @bob @eve Me +rob",
    ),
    (b":eve!e@h PART #c", b"Me / #c @bob Me +rob"),
    (b":s MODE #c +o eve", b"Me / #c @bob Me +rob"),
    (b":eve!e@h JOIN #c", b"Me / #c @bob eve Me +rob"),
    (b":bob!b@h JOIN #c", b"Me / #c bob eve Me +rob"),
    (b":Me!m@h JOIN #c", b"Me / #c Me"),
];

#[test]
fn ranks_and_name_lists(rt: HostRuntime) -> Result<(), Fail> {
    check_rows(&rt, &RANKS_AND_NAME_LISTS)
}

const RANKS_OF_OTHER_NETWORKS: [(&[u8], &[u8]); 10] = [
    (b":s 001 Me :hi", b"Me"),
    (b":s 005 Me PREFIX= :are supported", b"Me"),
    (b":Me!m@h JOIN #c", b"Me / #c Me"),
    (b":s 353 Me = #c :Me bob @eve", b"Me / #c bob Me"),
    (b":s MODE #c +o bob", b"Me / #c bob Me"),
    (b":s 001 Me :hi", b"Me"),
    (b":s 005 Me PREFIX=(qaohv)~&@%+ :are supported", b"Me"),
    (b":Me!m@h JOIN #c", b"Me / #c Me"),
    (
        b":s 353 Me = #c :+%@&~bob %eve",
        b"Me / #c ~&@%+bob %eve Me",
    ),
    (
        b":s MODE #c -qh+av bob bob eve Me",
        b"Me / #c &@+bob &%eve +Me",
    ),
];

/// Ranks of a network that has none, and of one that has five.
#[test]
fn ranks_of_other_networks(rt: HostRuntime) -> Result<(), Fail> {
    check_rows(&rt, &RANKS_OF_OTHER_NETWORKS)
}

const OUR_JOIN_OF_NO_CHANNEL: [(&[u8], &[u8]); 6] = [
    (b":s 001 Me :hi", b"Me"),
    (b":s 005 Me CHANTYPES=[# :x", b"Me"),
    (b":s 376 Me :end", b"Me"),
    (b":Me!m@h JOIN [c", b"Me / [c Me"),
    (b":s MODE [c +ov Me Me", b"Me / [c @+Me"),
    (b":Me!m@h JOIN {c", b"Me / [c Me"),
];

/// A JOIN of ours of a name that is no channel's, but has the key of a channel that we are on.
#[test]
fn our_join_of_a_name_that_is_no_channel(rt: HostRuntime) -> Result<(), Fail> {
    check_rows(&rt, &OUR_JOIN_OF_NO_CHANNEL)
}
