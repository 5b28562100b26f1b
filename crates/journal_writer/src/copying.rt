//! Copies of what is kept of client names.

ghost use Rattle.std.specs.Prelude.{◌≡◌, ◌<◌, ◌+◌, false, IfOk, OnOk, take};
ghost use Rattle.std.specs.FinMap as fin;
ghost use Rattle.history.specs.Marks.{bytes_cmp};

use history::{AdmitError, Marks};
use std::alloc::{AllocError, Global};

/// Adds a name that is not there yet, with its mark.
#[tactic(auto, using(crate::proofs::Copies::marked_new))]
fn put(copy: &mut Marks, name: &[u8], mark: Option<u64>) -> Result<(), AllocError>
    requires new { fin.contains_key copy.old name.now ≡ false }
    requires room { fin.len copy.old < 64 }
    ensures { OnOk result (copy.new ≡ fin.insert copy.old name.now mark) }
{
    match copy.admit(name) {
        Ok(_) => {}
        Err(AdmitError::NamesFull) => unreachable!(),
        Err(AdmitError::OutOfMemory) => return Err(AllocError),
    }
    if let Some(number) = mark {
        copy.set_mark(name, number);
    }
    Ok(())
}

/// Adds the name at a place to those before it.
#[tactic(auto, using(crate::proofs::Copies::put_next, crate::proofs::Copies::is_new, crate::proofs::Copies::has_room))]
fn put_at(copy: &mut Marks, marks: &Marks, i: usize) -> Result<(), AllocError>
    requires so_far { copy.old ≡ fin.from_entries (take i (fin.entries marks.now)) }
    requires there { i < fin.len marks.now }
    ensures { OnOk result (copy.new ≡ fin.from_entries (take (i + 1) (fin.entries marks.now))) }
{
    let _few = marks.count();
    match marks.at(i) {
        Some((name, mark)) => {
            put(copy, name, mark)?;
            Ok(())
        }
        None => Ok(()),
    }
}

/// A copy of names with their marks.
#[tactic(auto, using(crate::proofs::Copies::all_put))]
pub fn copied(alloc: Global, marks: &Marks) -> Result<Marks, AllocError>
    ensures { IfOk result (λ copy. copy ≡ marks.now) }
{
    let mut copy = Marks::new(alloc)?;
    let count = marks.count();
    let mut i: usize = 0;
    while i < count {
        put_at(&mut copy, marks, i)?;
        i += 1;
    }
    Ok(copy)
}
