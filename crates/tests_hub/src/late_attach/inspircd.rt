//! Late attach at InspIRCd: each set of capabilities, and each place from which a client may come.

use super::check_sets;
use std::test::Fail;
use test_views::INSPIRCD;

#[test]
fn sets_0_to_7(rt: HostRuntime) -> Result<(), Fail> {
    check_sets(&rt, &INSPIRCD, 9, 0)
}

#[test]
fn sets_8_to_15(rt: HostRuntime) -> Result<(), Fail> {
    check_sets(&rt, &INSPIRCD, 9, 8)
}

#[test]
fn sets_16_to_23(rt: HostRuntime) -> Result<(), Fail> {
    check_sets(&rt, &INSPIRCD, 9, 16)
}

#[test]
fn sets_24_to_31(rt: HostRuntime) -> Result<(), Fail> {
    check_sets(&rt, &INSPIRCD, 9, 24)
}

#[test]
fn sets_32_to_39(rt: HostRuntime) -> Result<(), Fail> {
    check_sets(&rt, &INSPIRCD, 9, 32)
}

#[test]
fn sets_40_to_47(rt: HostRuntime) -> Result<(), Fail> {
    check_sets(&rt, &INSPIRCD, 9, 40)
}

#[test]
fn sets_48_to_55(rt: HostRuntime) -> Result<(), Fail> {
    check_sets(&rt, &INSPIRCD, 9, 48)
}

#[test]
fn sets_56_to_63(rt: HostRuntime) -> Result<(), Fail> {
    check_sets(&rt, &INSPIRCD, 9, 56)
}
