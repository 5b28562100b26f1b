//! The text of all figures.

ghost use Rattle.std.specs.Prelude.{◌≡◌, ◌++◌, IfOk, OnOk};
ghost use Rattle.figures.specs.Text.{comment_of, families_of, family_of, figures_of, head_of, help_of};
ghost use Rattle.figures.specs.Text.{measured, name_of, number_end, sample_at, sample_of};
ghost use Rattle.figures.specs.Text.{total_of, totals_of};

use crate::labels::push_labels;
use std::alloc::{AllocError, Global};

/// The figures of a network.
#[derive(Clone, Copy, Debug)]
pub struct NetworkFigures<'a> {
    /// The name of its user.
    pub user: &'a [u8],
    /// Its own name.
    pub network: &'a [u8],
    /// Whether it has let us in.
    pub is_online: bool,
    /// How many clients of it are served.
    pub sessions: u64,
    /// How many messages are kept, and how many bytes these have; `None` if that is not known.
    pub kept: Option<(u64, u64)>,
}

/// What is counted since the program began.
#[derive(Clone, Copy, Debug)]
pub struct Totals {
    /// Sessions that were cut, since their client took too little.
    pub cuts: u64,
    /// Connections and logins that were refused.
    pub refusals: u64,
    /// Dials of networks.
    pub dials: u64,
    /// Lines of the log that were lost.
    pub lost: u64,
}

/// What is measured of each network.
#[derive(Clone, Copy, Debug)]
pub(crate) enum Measure {
    Online,
    Sessions,
    Messages,
    Bytes,
}

/// Adds a line of comment on a figure.
#[tactic(auto, unfolding(crate::specs::Text::comment_of))]
fn push_comment(out: &mut Vec<u8>, kind: &[u8], name: &[u8], text: &[u8]) -> Result<(), AllocError>
    ensures { OnOk result (out.new.items
        ≡ out.old.items ++ comment_of kind.now name.now text.now) }
{
    out.extend_from_slice(kind)?;
    out.extend_from_slice(name)?;
    out.push(b' ')?;
    out.extend_from_slice(text)?;
    out.push(b'\n')?;
    Ok(())
}

/// Adds the text before the samples of a figure: what it is, and of which type.
fn push_head(out: &mut Vec<u8>, name: &[u8], help: &[u8], kind: &[u8]) -> Result<(), AllocError>
    ensures { OnOk result (out.new.items ≡ out.old.items ++ head_of name.now help.now kind.now) }
{
    push_comment(out, b"# HELP ", name, help)?;
    push_comment(out, b"# TYPE ", name, kind)
}

/// Adds a number and the line's end.
fn push_number(alloc: Global, out: &mut Vec<u8>, number: u64) -> Result<(), AllocError>
    ensures { OnOk result (out.new.items ≡ out.old.items ++ number_end number) }
{
    let digits = format!(in alloc; " {number}\n")?;
    out.extend_from_slice(digits.as_bytes())?;
    Ok(())
}

/// Adds a figure that is counted since the program began.
fn push_total(
    alloc: Global,
    out: &mut Vec<u8>,
    name: &[u8],
    help: &[u8],
    value: u64,
) -> Result<(), AllocError>
    ensures { OnOk result (out.new.items ≡ out.old.items ++ total_of name.now help.now value) }
{
    push_head(out, name, help, b"counter")?;
    out.extend_from_slice(name)?;
    push_number(alloc, out, value)
}

/// Adds all figures that are counted since the program began.
fn push_totals(alloc: Global, out: &mut Vec<u8>, totals: Totals) -> Result<(), AllocError>
    ensures { OnOk result (out.new.items ≡ out.old.items ++ totals_of totals) }
{
    push_total(
        alloc,
        out,
        b"bnc_cuts_total",
        b"Sessions that were cut, since their client took too little.",
        totals.cuts,
    )?;
    push_total(
        alloc,
        out,
        b"bnc_refusals_total",
        b"Connections and logins that were refused.",
        totals.refusals,
    )?;
    push_total(
        alloc,
        out,
        b"bnc_dials_total",
        b"Dials of networks.",
        totals.dials,
    )?;
    push_total(
        alloc,
        out,
        b"bnc_log_lines_lost_total",
        b"Lines of the log that were lost.",
        totals.lost,
    )
}

impl Measure {
    /// What it is called.
    fn name(self) -> &'static [u8]
        ensures { result.now ≡ name_of self }
    {
        match self {
            Measure::Online => b"bnc_network_online",
            Measure::Sessions => b"bnc_sessions",
            Measure::Messages => b"bnc_kept_messages",
            Measure::Bytes => b"bnc_kept_bytes",
        }
    }

    /// What it is.
    fn help(self) -> &'static [u8]
        ensures { result.now ≡ help_of self }
    {
        match self {
            Measure::Online => b"Whether the network has let us in.",
            Measure::Sessions => b"Clients of the network that are served.",
            Measure::Messages => b"Messages that are kept of the network.",
            Measure::Bytes => b"Bytes of the messages that are kept of the network.",
        }
    }

    /// What it is of a network, if that is known.
    fn value(self, network: &NetworkFigures<'_>) -> Option<u64>
        ensures { result ≡ measured self network.now }
    {
        match self {
            Measure::Online => Some(u64::from(network.is_online)),
            Measure::Sessions => Some(network.sessions),
            Measure::Messages => Some(network.kept?.0),
            Measure::Bytes => Some(network.kept?.1),
        }
    }
}

/// Adds the sample of a network.
#[tactic(auto, unfolding(crate::specs::Text::sample_of))]
fn push_sample(
    alloc: Global,
    out: &mut Vec<u8>,
    measure: Measure,
    network: &NetworkFigures<'_>,
    value: u64,
) -> Result<(), AllocError>
    ensures { OnOk result (out.new.items
        ≡ out.old.items ++ sample_of measure network.now value) }
{
    out.extend_from_slice(measure.name())?;
    push_labels(out, network.user, network.network)?;
    push_number(alloc, out, value)
}

/// Adds the sample of a network, if what is measured is known.
fn push_known(
    alloc: Global,
    out: &mut Vec<u8>,
    measure: Measure,
    network: &NetworkFigures<'_>,
) -> Result<(), AllocError>
    ensures { OnOk result (out.new.items ≡ out.old.items ++ sample_at measure network.now) }
{
    match measure.value(network) {
        Some(value) => push_sample(alloc, out, measure, network, value),
        None => Ok(()),
    }
}

/// Adds a figure of all networks.
fn push_family(
    alloc: Global,
    out: &mut Vec<u8>,
    measure: Measure,
    networks: &[NetworkFigures<'_>],
) -> Result<(), AllocError>
    ensures { OnOk result (out.new.items ≡ out.old.items ++ family_of measure networks.now) }
{
    push_head(out, measure.name(), measure.help(), b"gauge")?;
    for network in networks {
        push_known(alloc, out, measure, network)?;
    }
    Ok(())
}

/// Adds all figures of networks.
fn push_families(
    alloc: Global,
    out: &mut Vec<u8>,
    networks: &[NetworkFigures<'_>],
) -> Result<(), AllocError>
    ensures { OnOk result (out.new.items ≡ out.old.items ++ families_of networks.now) }
{
    push_family(alloc, out, Measure::Online, networks)?;
    push_family(alloc, out, Measure::Sessions, networks)?;
    push_family(alloc, out, Measure::Messages, networks)?;
    push_family(alloc, out, Measure::Bytes, networks)
}

/// The text of all figures: of each network, and then what is counted since the program began.
pub fn figures_text(
    alloc: Global,
    networks: &[NetworkFigures<'_>],
    totals: Totals,
) -> Result<Vec<u8>, AllocError>
    ensures { IfOk result (λ text. text.items ≡ figures_of networks.now totals) }
{
    let mut out = Vec::new(alloc);
    push_families(alloc, &mut out, networks)?;
    push_totals(alloc, &mut out, totals)?;
    Ok(out)
}
