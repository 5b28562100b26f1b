//! `bnc attach --profile FILE`: what is kept, and how it is played back, as a settings file says it.

ghost use Rattle.std.specs.Prelude.{◌≡◌, ◌≢◌, ℕ, List, false, true, IfErr, OnOk};
ghost use Rattle.std.specs.Io.KnownBytes.{Appends, Consumes, IsAtEnd};
ghost use Rattle.bnc_config.specs.Document.{MeansProfile};
ghost use Rattle.bnc_config.specs.Settings.{ProfileSettings};
ghost use Rattle.irc_line.specs.Lines.{is_too_long};
ghost use Rattle.net_view.specs.View.{view_of};
ghost use Rattle.commands.specs.Attach.{IsProfiledFault, profiled_burst};
ghost use Rattle.commands.specs.Stream.{transcript_of};

use crate::attach::run_attach_by;
use crate::check::settings_text;
use crate::fault::Fault;
use bnc_config::ProfileConfig;
use client_caps::Caps;
use profile_settings::{keeping_of, playing_of};
use std::alloc::Global;
use std::io;
use std::io::{Read, Write};
use std::rt::Files;

/// Reads and writes as [`run_attach`](crate::run_attach) does, by the profile of a settings file
/// with this text. Of the text only the tables `[messages]` and `[playback]` are read and judged,
/// and their first fault comes before anything is read of the input.
pub fn run_attach_profiled<R: Read, W: Write>(
    alloc: Global,
    text: &[u8],
    reader: &mut R,
    out: &mut W,
    caps: Caps,
    history: usize,
) -> Result<(), Fault>
    ensures written { OnOk result ((profile : ProfileSettings) × MeansProfile text.now profile
        × (bytes : List ℕ)
        × Consumes (R.remaining reader.old) (R.remaining reader.new) bytes
        × IsAtEnd (R.remaining reader.new)
        × (is_too_long bytes ≡ false)
        × ((view_of (transcript_of bytes)).ready ≡ true)
        × Appends (W.contents out.old) (W.contents out.new)
        (profiled_burst profile caps history bytes)) }
    ensures refused { IfErr result (λ fault. (bytes : List ℕ)
        × Consumes (R.remaining reader.old) (R.remaining reader.new) bytes
        × IsProfiledFault text.now bytes (R.remaining reader.new) fault) }
    ensures unwritten { IfErr result (λ fault. fault ≢ Fault.CannotWrite → out.new ≡ out.old) }
{
    let profile = match ProfileConfig::read(alloc, text) {
        Ok(profile) => profile,
        Err(fault) => return Err(Fault::Settings(fault)),
    };
    let keeping = keeping_of(alloc, profile.messages())?;
    let playing = playing_of(profile.playback());
    run_attach_by(alloc, reader, out, caps, history, keeping, playing)
}

/// Reads standard input and writes standard output as [`run_attach_profiled`] does, by the settings
/// file at a path. If the file can't be read, nothing else is done.
pub fn attach_file<R: AllocGlobal + Files + Input + Print>(
    rt: &R,
    path: &str,
    caps: Caps,
    history: usize,
) -> Result<(), Fault> {
    let text = settings_text(rt, path)?;
    let (alloc, text) = (rt.alloc(), text.as_slice());
    match run_attach_profiled(
        alloc,
        text,
        &mut rt.reader(),
        &mut io::writer(rt),
        caps,
        history,
    ) {
        Err(Fault::Settings(fault)) => Err(Fault::of_settings(alloc, path, text, fault)),
        done => done,
    }
}
