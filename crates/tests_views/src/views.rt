//! Transcripts, and what the views show of them.

mod channels;
mod people;
mod readers;

use net_view::NetworkView;
use quick_view::QuickView;
use std::process::Abort;
use std::test::Fail;
use tape_view::TapeView;
use test_views::{item, quick_of, shown, tape_of};

/// What a view shows after each of these texts.
fn rows_shown<R: AllocGlobal + Abort, V: NetworkView>(
    rt: &R,
    view: &mut V,
    rows: &[(&[u8], &[u8])],
) -> Result<(), Fail> {
    for (text, wanted) in rows {
        view.take(&item(rt.alloc(), text)?)?;
        assert!(rt; shown(rt.alloc(), &*view)?.as_slice() == *wanted);
    }
    Ok(())
}

/// What the view that searches shows after each of these texts.
fn rows_by_tape<R: AllocGlobal + Abort>(rt: &R, rows: &[(&[u8], &[u8])]) -> Result<(), Fail> {
    rows_shown(rt, &mut TapeView::new(rt.alloc())?, rows)
}

/// What the view by tables shows after each of these texts.
fn rows_by_tables<R: AllocGlobal + Abort>(rt: &R, rows: &[(&[u8], &[u8])]) -> Result<(), Fail> {
    rows_shown(rt, &mut QuickView::new(rt.alloc())?, rows)
}

/// What both views show after each of these texts.
pub(crate) fn check_rows<R: AllocGlobal + Abort>(
    rt: &R,
    rows: &[(&[u8], &[u8])],
) -> Result<(), Fail> {
    rows_by_tape(rt, rows)?;
    rows_by_tables(rt, rows)
}

/// Rows of a table, each with what is wanted of a view.
pub(crate) trait Rows {
    /// Each row has what is wanted of this view.
    fn check<R: AllocGlobal + Abort, V: NetworkView>(&self, rt: &R, view: &V) -> Result<(), Fail>;
}

/// Rows of the view that searches, after these texts.
fn check_by_tape<R: AllocGlobal + Abort, T: Rows>(
    rt: &R,
    texts: &[&[u8]],
    rows: &T,
) -> Result<(), Fail> {
    rows.check(rt, &tape_of(rt.alloc(), texts)?)
}

/// Rows of the view by tables, after these texts.
pub(crate) fn check_by_tables<R: AllocGlobal + Abort, T: Rows>(
    rt: &R,
    texts: &[&[u8]],
    rows: &T,
) -> Result<(), Fail> {
    rows.check(rt, &quick_of(rt.alloc(), texts)?)
}

/// Rows of both views, after these texts.
pub(crate) fn check_after<R: AllocGlobal + Abort, T: Rows>(
    rt: &R,
    texts: &[&[u8]],
    rows: &T,
) -> Result<(), Fail> {
    check_by_tape(rt, texts, rows)?;
    check_by_tables(rt, texts, rows)
}
