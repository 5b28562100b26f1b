//! Refused connections: which of them get a line in the log.

use std::process::Abort;
use std::test::Fail;
use steward::Refusals;

/// A refusal of this address at this time, and what is done about it.
type Row = (u64, u64, &'static str);

fn check<R: AllocGlobal + Abort>(
    rt: &R,
    refusals: &mut Refusals,
    rows: &[Row],
) -> Result<(), Fail> {
    for (now, from, wanted) in rows {
        let answer = refusals.note(*from, *now);
        let said = format!(in rt.alloc(); "{answer:?}")?;
        if said.as_str() != *wanted {
            return Err(Fail::new(format_args!("at {now}: {said}, wanted {wanted}")));
        }
    }
    Ok(())
}

/// One line of an address in 100 milliseconds, with the count of those before it.
#[test]
fn an_address_gets_a_line_in_a_while(rt: HostRuntime) -> Result<(), Fail> {
    let mut refusals = Refusals::new(rt.alloc(), 1, 100)?;
    let rows = [
        (0, 1, "Told(0)"),
        (50, 1, "Counted"),
        (99, 1, "Counted"),
        (100, 1, "Told(2)"),
        (150, 1, "Counted"),
    ];
    check(&rt, &mut refusals, &rows)?;
    assert!(rt; refusals.take_due(199) == None);
    assert!(rt; refusals.take_due(200) == Some((Some(1), 1)));
    Ok(())
}

/// Addresses without a note of their own are counted together.
#[test]
fn other_addresses_share_a_line(rt: HostRuntime) -> Result<(), Fail> {
    let mut refusals = Refusals::new(rt.alloc(), 1, 100)?;
    let rows = [
        (200, 1, "Told(0)"),
        (210, 2, "Told(0)"),
        (220, 3, "Counted"),
        (230, 2, "Counted"),
    ];
    check(&rt, &mut refusals, &rows)?;
    assert!(rt; refusals.take_due(310) == Some((None, 2)));
    assert!(rt; refusals.take_due(310) == None);
    Ok(())
}
