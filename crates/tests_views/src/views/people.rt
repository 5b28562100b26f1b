//! Persons as both views show them: who comes and goes, names, accounts and away texts.

use crate::views::check_rows;
use std::test::Fail;

const PEOPLE_COME_AND_GO: [(&[u8], &[u8]); 17] = [
    (b"PING x", b""),
    (b":Me!m@h JOIN #c", b""),
    (b":s 001 ~x :no nick", b""),
    (b":s 001 Me :hi", b"Me"),
    (b":bob!b@h JOIN #c", b"Me"),
    (b":Me!m@h JOIN #c", b"Me / #c Me"),
    (b":bob!b@h JOIN #C", b"Me / #c bob Me"),
    (b":Me!m@h JOIN nowhere", b"Me / #c bob Me"),
    (b":Me!m@h join &B", b"Me / #c bob Me / &B Me"),
    (b":s PRIVMSG #c :PART #c", b"Me / #c bob Me / &B Me"),
    (b":BOB!b@h PART #c", b"Me / #c Me / &B Me"),
    (b":me!m@h PART #c", b"Me / &B Me"),
    (b":Me!m@h JOIN #c", b"Me / #c Me / &B Me"),
    (b"lost", b"Me"),
    (b"lost", b"Me"),
    (b":Me!m@h JOIN #d", b"Me / #d Me"),
    (b":s 001 You :hi", b"You"),
];

#[test]
fn people_come_and_go(rt: HostRuntime) -> Result<(), Fail> {
    check_rows(&rt, &PEOPLE_COME_AND_GO)
}

const PEOPLE_CHANGE_THEIR_NAMES: [(&[u8], &[u8]); 12] = [
    (b":s 001 Me :hi", b"Me"),
    (b":s 005 Me PREFIX=(ov)@+ CHANTYPES=# :are supported", b"Me"),
    (b":s 376 Me :end", b"Me"),
    (b":Me!m@h JOIN #c", b"Me / #c Me"),
    (b":bob!b@h JOIN #c", b"Me / #c bob Me"),
    (b":bob!b@h NICK Bob2", b"Me / #c Bob2 Me"),
    (b":Me!m@h NICK Moi", b"Moi / #c Bob2 Moi"),
    (b":s KICK #c", b"Moi / #c Bob2 Moi"),
    (b":s KICK #c bob2 :out", b"Moi / #c Moi"),
    (b"lost", b"Moi"),
    (b":Moi!m@h JOIN #c", b"Moi / #c Moi"),
    (b":Moi!m@h QUIT :bye", b"Moi"),
];

#[test]
fn people_change_their_names(rt: HostRuntime) -> Result<(), Fail> {
    check_rows(&rt, &PEOPLE_CHANGE_THEIR_NAMES)
}

const NOBODY_TAKES_OUR_NAME: [(&[u8], &[u8]); 6] = [
    (b":s 001 Me :hi", b"Me"),
    (b":Me!m@h JOIN #c", b"Me / #c Me"),
    (b":bob!b@h JOIN #c", b"Me / #c bob Me"),
    (b":bob!b@h NICK Me", b"Me / #c bob Me"),
    (b":@x!u@h JOIN #c", b"Me / #c bob Me"),
    (b":Me!m@h NICK ME", b"ME / #c bob ME"),
];

#[test]
fn nobody_takes_our_name(rt: HostRuntime) -> Result<(), Fail> {
    check_rows(&rt, &NOBODY_TAKES_OUR_NAME)
}

const A_NAME_IS_TAKEN_OVER: [(&[u8], &[u8]); 8] = [
    (b":s 001 Me :hi", b"Me"),
    (b":Me!m@h JOIN #c", b"Me / #c Me"),
    (b":Me!m@h JOIN #d", b"Me / #c Me / #d Me"),
    (b":bob!b@h JOIN #c", b"Me / #c bob Me / #d Me"),
    (b":eve!e@h JOIN #d", b"Me / #c bob Me / #d eve Me"),
    // whoever was called so before is gone
    (b":bob!b@h NICK eve", b"Me / #c eve Me / #d Me"),
    (b":eve!b@h NICK bob", b"Me / #c bob Me / #d Me"),
    (b":bob!b@h QUIT", b"Me / #c Me / #d Me"),
];

#[test]
fn a_name_is_taken_over(rt: HostRuntime) -> Result<(), Fail> {
    check_rows(&rt, &A_NAME_IS_TAKEN_OVER)
}

const NAMES_BY_THE_DEFAULT_MAPPING: [(&[u8], &[u8]); 4] = [
    (b":s 001 Me :hi", b"Me"),
    (b":Me!m@h JOIN #c", b"Me / #c Me"),
    (b":a[b!x@h JOIN #c", b"Me / #c a[b Me"),
    (b":A{B!x@h PART #c", b"Me / #c Me"),
];

#[test]
fn names_by_the_default_mapping(rt: HostRuntime) -> Result<(), Fail> {
    check_rows(&rt, &NAMES_BY_THE_DEFAULT_MAPPING)
}

const NAMES_BY_THE_SETTINGS: [(&[u8], &[u8]); 9] = [
    (b":s 001 Me :hi", b"Me"),
    (
        b":s 005 Me PREFIX=(ov)@+ CHANTYPES=# CASEMAPPING=ascii :are supported",
        b"Me",
    ),
    (b":s 376 Me :end", b"Me"),
    (b":s 005 Me CASEMAPPING=rfc1459 :are supported", b"Me"),
    (b":Me!m@h JOIN &x", b"Me"),
    (b":Me!m@h JOIN #c", b"Me / #c Me"),
    (b":a[b!x@h JOIN #c", b"Me / #c a[b Me"),
    (b":A{B!x@h PART #c", b"Me / #c a[b Me"),
    (b":A[B!x@h PART #C", b"Me / #c Me"),
];

#[test]
fn names_by_the_settings(rt: HostRuntime) -> Result<(), Fail> {
    check_rows(&rt, &NAMES_BY_THE_SETTINGS)
}

const SETTINGS_THAT_COME_LATE: [(&[u8], &[u8]); 5] = [
    (b":s 001 Me :hi", b"Me"),
    (b":Me!m@h JOIN #c", b"Me / #c Me"),
    (b":s 005 Me CASEMAPPING=ascii :are supported", b"Me / #c Me"),
    (b":a[b!x@h JOIN #c", b"Me / #c a[b Me"),
    (b":A{B!x@h PART #c", b"Me / #c Me"),
];

#[test]
fn settings_that_come_late(rt: HostRuntime) -> Result<(), Fail> {
    check_rows(&rt, &SETTINGS_THAT_COME_LATE)
}

const WHAT_IS_KNOWN_OF_PERSONS: [(&[u8], &[u8]); 14] = [
    (b":s 001 Me :hi", b"Me"),
    (b":bob!b@h ACCOUNT early", b"Me"),
    (b":Me!m@h JOIN #c", b"Me / #c Me"),
    (b":Me!m@h JOIN #d", b"Me / #c Me / #d Me"),
    (
        b":bob!b@h JOIN #c bobacc :Bob",
        b"Me / #c bob=bobacc Me / #d Me",
    ),
    (
        b":bob!b@h JOIN #d",
        b"Me / #c bob=bobacc Me / #d bob=bobacc Me",
    ),
    (b":bob!b@h PART #c", b"Me / #c Me / #d bob=bobacc Me"),
    (b":bob!b@h NICK rob", b"Me / #c Me / #d Me rob=bobacc"),
    (b":rob!b@h ACCOUNT *", b"Me / #c Me / #d Me rob"),
    (b":rob!b@h AWAY :lunch", b"Me / #c Me / #d Me rob~lunch"),
    (b":rob!b@h ACCOUNT r", b"Me / #c Me / #d Me rob=r~lunch"),
    (b":rob!b@h AWAY", b"Me / #c Me / #d Me rob=r"),
    (b":rob!b@h PART #d", b"Me / #c Me / #d Me"),
    (b":rob!b@h JOIN #c", b"Me / #c Me rob / #d Me"),
];

#[test]
fn what_is_known_of_persons(rt: HostRuntime) -> Result<(), Fail> {
    check_rows(&rt, &WHAT_IS_KNOWN_OF_PERSONS)
}
