//! The report of `bnc view`. Names are the bytes that the network sent, in no particular encoding.

ghost use Rattle.std.specs.Prelude.{◌≡◌, ◌++◌, [], IfOk, OnOk, option_map};
ghost use Rattle.std.specs.Option.{option_map_or};
ghost use Rattle.irc_line.specs.Lines.{with_lf};
ghost use Rattle.net_view.specs.Readers.{channel_shown};
ghost use Rattle.net_view.specs.Walks.{modes_at, parts_of};
ghost use Rattle.commands.specs.Report.{channel_lines, channels_lines, labelled, letters_of};
ghost use Rattle.commands.specs.Report.{member_line, member_lines, mode_lines, params_of};
ghost use Rattle.commands.specs.Report.{report_of, skipped_lines, text_of, topic_lines};
ghost use Rattle.irc_support.specs.Written.{symbols_of};

use irc_support::RANK_COUNT;
use net_view::{Member, Members, Modes, NetworkView, OutOfMemory};
use std::alloc::Global;

/// Adds a line to a report: what it is about, and then a name or a number.
fn push_line(report: &mut Vec<u8>, label: &[u8], text: &[u8]) -> Result<(), OutOfMemory>
    ensures { OnOk result (report.new.items ≡ report.old.items ++ with_lf (label.now ++ text.now)) }
{
    report.extend_from_slice(label)?;
    report.extend_from_slice(text)?;
    report.push(b'\n')?;
    Ok(())
}

/// Adds a text after its label, if there is one.
fn push_labelled(report: &mut Vec<u8>, label: &[u8], text: Option<&[u8]>) -> Result<(), OutOfMemory>
    ensures { OnOk result (report.new.items
        ≡ report.old.items ++ labelled label.now (option_map (λ text. text.now) text.entry)) }
{
    if let Some(text) = text {
        report.extend_from_slice(label)?;
        report.extend_from_slice(text)?;
    }
    Ok(())
}

/// Adds the letters of the modes of the channel at place `i`.
fn push_letters<V: NetworkView>(report: &mut Vec<u8>, view: &V, i: usize) -> Result<(), OutOfMemory>
    ensures { OnOk result (report.new.items
        ≡ report.old.items ++ letters_of (modes_at (V.view view.now) i)) }
{
    let mut modes = Modes::of(view, i);
    while let Some((letter, _)) = modes.next() {
        report.push(letter)?;
    }
    Ok(())
}

/// Adds the parameters of the modes of the channel at place `i`.
fn push_params<V: NetworkView>(report: &mut Vec<u8>, view: &V, i: usize) -> Result<(), OutOfMemory>
    ensures { OnOk result (report.new.items
        ≡ report.old.items ++ params_of (modes_at (V.view view.now) i)) }
{
    let mut modes = Modes::of(view, i);
    while let Some((_, param)) = modes.next() {
        push_labelled(report, b" ", param)?;
    }
    Ok(())
}

/// Adds the modes of the channel at place `i`, if it has any.
fn push_modes<V: NetworkView>(report: &mut Vec<u8>, view: &V, i: usize) -> Result<(), OutOfMemory>
    ensures { OnOk result (report.new.items
        ≡ report.old.items ++ text_of (mode_lines (modes_at (V.view view.now) i))) }
{
    if view.mode_at(i, 0).is_none() {
        return Ok(());
    }
    report.extend_from_slice(b"modes +")?;
    push_letters(report, view, i)?;
    push_params(report, view, i)?;
    report.push(b'\n')?;
    Ok(())
}

/// Adds a topic, if there is one.
fn push_topic(report: &mut Vec<u8>, topic: Option<&[u8]>) -> Result<(), OutOfMemory>
    ensures { OnOk result (report.new.items
        ≡ report.old.items ++ text_of (topic_lines (option_map (λ text. text.now) topic.entry))) }
{
    match topic {
        Some(text) => push_line(report, b"topic ", text),
        None => Ok(()),
    }
}

/// Adds the symbols of a member's ranks, the highest first.
fn push_symbols<V: NetworkView>(
    report: &mut Vec<u8>,
    view: &V,
    member: &Member<'_>,
) -> Result<(), OutOfMemory>
    ensures { OnOk result (report.new.items
        ≡ report.old.items ++ symbols_of (V.view view.now).settings member.now.ranks) }
{
    for rank in 0..RANK_COUNT {
        if member.ranks.has(rank) {
            if let Some(symbol) = view.support().symbol(rank) {
                report.push(symbol)?;
            }
        }
    }
    Ok(())
}

/// Adds a member of a channel, with what is known of the person.
fn push_member<V: NetworkView>(
    report: &mut Vec<u8>,
    view: &V,
    member: &Member<'_>,
) -> Result<(), OutOfMemory>
    ensures { OnOk result (report.new.items
        ≡ report.old.items
        ++ with_lf (member_line (V.view view.now).settings (parts_of member.now))) }
{
    report.extend_from_slice(b"member ")?;
    push_symbols(report, view, member)?;
    report.extend_from_slice(member.nick)?;
    push_labelled(report, b" account ", member.account)?;
    push_labelled(report, b" away ", member.away)?;
    report.push(b'\n')?;
    Ok(())
}

/// Adds the members of the channel at place `i`.
fn push_members<V: NetworkView>(report: &mut Vec<u8>, view: &V, i: usize) -> Result<(), OutOfMemory>
    ensures { OnOk result (report.new.items ≡ report.old.items
        ++ option_map_or (λ channel. text_of (member_lines (V.view view.now) channel))
        (channel_shown (V.view view.now) i) []) }
{
    let mut members = Members::of(view, i);
    while let Some(member) = members.next() {
        push_member(report, view, &member)?;
    }
    Ok(())
}

/// Adds the channel at place `i` with its modes, its topic and its members.
fn push_channel<V: NetworkView>(report: &mut Vec<u8>, view: &V, i: usize) -> Result<(), OutOfMemory>
    ensures { OnOk result (report.new.items ≡ report.old.items
        ++ option_map_or (λ channel. text_of (channel_lines (V.view view.now) channel))
        (channel_shown (V.view view.now) i) []) }
{
    if let Some(channel) = view.channel_at(i) {
        push_line(report, b"channel ", channel.name)?;
        push_modes(report, view, i)?;
        push_topic(report, channel.topic)?;
        push_members(report, view, i)?;
    }
    Ok(())
}

/// Adds all channels.
fn push_channels<V: NetworkView>(report: &mut Vec<u8>, view: &V) -> Result<(), OutOfMemory>
    ensures { OnOk result (report.new.items
        ≡ report.old.items ++ text_of (channels_lines (V.view view.now))) }
{
    for i in 0..view.channel_count() {
        push_channel(report, view, i)?;
    }
    Ok(())
}

/// Adds how many lines were skipped, if any were.
fn push_skipped(alloc: Global, report: &mut Vec<u8>, skipped: u64) -> Result<(), OutOfMemory>
    ensures { OnOk result (report.new.items ≡ report.old.items ++ text_of (skipped_lines skipped)) }
{
    if skipped > 0 {
        let count = format!(in alloc; "{skipped}")?;
        push_line(report, b"skipped ", count.as_bytes())?;
    }
    Ok(())
}

/// The report of a network view, and of how many lines of its transcript were skipped:
///
/// ```text
/// nick Me channel #c modes +kl key 9 topic Hello all member @+bob account bobacc away gone fishing
/// member Me skipped 3
/// ```
///
/// Channels and members come in the order of their keys, and each line ends with LF. Modes come
/// in the order of their letters' bytes, and after them their parameters in the same order. Before
/// a nick come the symbols of all ranks held on the channel, the highest first; after it the
/// account and the away text of the person. Modes, topic, account and away text come only if
/// there are any, and the last line only if something was skipped. Before a welcome the first
/// line is `no welcome`.
pub fn report_text<V: NetworkView>(
    alloc: Global,
    view: &V,
    skipped: u64,
) -> Result<Vec<u8>, OutOfMemory>
    ensures { IfOk result (λ report. report.items ≡ report_of (V.view view.now) skipped) }
{
    let mut report = Vec::new(alloc);
    match view.own() {
        Some(nick) => {
            push_line(&mut report, b"nick ", nick)?;
            push_channels(&mut report, view)?;
        }
        None => push_line(&mut report, b"no welcome", b"")?,
    }
    push_skipped(alloc, &mut report, skipped)?;
    Ok(report)
}
