//! `bnc view`: reads what a network sent, and reports what that says of the network.

ghost use Rattle.std.specs.Prelude.{◌≡◌, ◌≢◌, [], ℕ, List, false, IfErr, OnOk};
ghost use Rattle.std.specs.Io.KnownBytes.{Appends, Consumes, IsAtEnd};
ghost use Rattle.irc_line.specs.Lines.{is_too_long};
ghost use Rattle.net_view.specs.View.{view_of};
ghost use Rattle.commands.specs.Stream.{IsCauseOf, stream_report};

use crate::fault::Fault;
use crate::input::{Taker, read_all};
use crate::report::report_text;
use irc_line::Line;
use net_view::{Item, NetworkView, OutOfMemory};
use quick_view::QuickView;
use std::alloc::Global;
use std::io::{Read, Write};

/// A view that takes the lines of an input.
#[derive(Drop)]
pub struct Viewing<V> {
    pub view: V,
}

impl<V: NetworkView> Taker for Viewing<V> {
    ghost use Rattle.std.specs.Prelude.{◌≡◌};
    ghost use Rattle.history.specs.Keeping.{whole};
    ghost use Rattle.net_view.specs.View.{view_of};

    ghost is_after = { λ viewing items. V.view viewing.view ≡ view_of items };

    ghost room = { λ _. (whole, 0) };

    fn take_line(&mut self, line: Line) -> Result<(), OutOfMemory> {
        self.view.take(&Item::Line(line))
    }
}

/// Reads what a network sent to its end, and writes the report of its lines. The view is a new one.
///
/// Except when out of memory, a fault comes if over 16,384 bytes come without LF, if a read
/// fails or 1,000,000,000 reads did not reach the end, and if the report is not taken. After a
/// fault other than `CannotWrite` nothing is written. Bytes after the last LF are no line. The
/// input is not kept: memory grows with what the view keeps alone.
pub fn report_input<V: NetworkView, R: Read, W: Write>(
    alloc: Global,
    viewing: &mut Viewing<V>,
    reader: &mut R,
    out: &mut W,
) -> Result<(), Fault>
    requires new { V.view viewing.old.view ≡ view_of [] }
    ensures written { OnOk result ((bytes : List ℕ)
        × Consumes (R.remaining reader.old) (R.remaining reader.new) bytes
        × IsAtEnd (R.remaining reader.new)
        × (is_too_long bytes ≡ false)
        × Appends (W.contents out.old) (W.contents out.new) (stream_report bytes)) }
    ensures refused { IfErr result (λ fault. (bytes : List ℕ)
        × Consumes (R.remaining reader.old) (R.remaining reader.new) bytes
        × IsCauseOf bytes (R.remaining reader.new) fault) }
    ensures unwritten { IfErr result (λ fault. fault ≢ Fault.CannotWrite → out.new ≡ out.old) }
{
    let skipped = read_all(alloc, viewing, reader)?;
    let report = report_text(alloc, &viewing.view, skipped)?;
    match out.write_all(&report) {
        Ok(()) => Ok(()),
        Err(_) => Err(Fault::CannotWrite),
    }
}

/// Reads what a network sent to its end, and writes the report of its lines, as `report_input` has
/// it of a new view:
///
/// ```text
/// :s 001 Me :hi               nick Me
/// :Me!m@h JOIN #c             channel #c
/// :s MODE #c +k key           modes +k key
/// :bob!b@h JOIN #c            member @bob away lunch
/// :s MODE #c +o bob           member Me
/// :bob!b@h AWAY :lunch
/// ```
#[tactic(auto, using(net_view::proofs::StepLaw::view_start))]
pub fn run_view<R: Read, W: Write>(alloc: Global, reader: &mut R, out: &mut W) -> Result<(), Fault>
    ensures written { OnOk result ((bytes : List ℕ)
        × Consumes (R.remaining reader.old) (R.remaining reader.new) bytes
        × IsAtEnd (R.remaining reader.new)
        × (is_too_long bytes ≡ false)
        × Appends (W.contents out.old) (W.contents out.new) (stream_report bytes)) }
    ensures refused { IfErr result (λ fault. (bytes : List ℕ)
        × Consumes (R.remaining reader.old) (R.remaining reader.new) bytes
        × IsCauseOf bytes (R.remaining reader.new) fault) }
    ensures unwritten { IfErr result (λ fault. fault ≢ Fault.CannotWrite → out.new ≡ out.old) }
{
    let mut viewing = Viewing {
        view: QuickView::new(alloc)?,
    };
    report_input(alloc, &mut viewing, reader, out)
}
