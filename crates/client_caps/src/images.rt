//! What a client is sent in place of a line, and for a loss of the connection.

ghost use Rattle.std.specs.Prelude.{◌≡◌, true, false, ◌∷◌, [], ◌++◌, ◌&&◌, cond, not, IsTrue, IfOk};
ghost use Rattle.std.specs.Prelude.{OnOk, codes, option_map, option_to_list, map, slice_get, take};
ghost use Rattle.std.specs.List.{list_any, list_all, join_with_byte};
ghost use Rattle.irc_support.specs.Written.{highest_text, symbols_of, names_with_highest};
ghost use Rattle.irc_support.specs.Line.{split_words_in};
ghost use Rattle.std.specs.Str.{str_eq_ignore_ascii_case};
ghost use Rattle.irc_line.specs.Line.{has_command};
ghost use Rattle.irc_line.specs.Writing.{is_writable, is_part, line_of_parts, retagged};
ghost use Rattle.irc_support.specs.NamesReply.{words_between};
ghost use Rattle.net_view.specs.StateLines.{actor_nick};
ghost use Rattle.client_caps.specs.Images.{account_joined, is_passed_on, link_commands};
ghost use Rattle.client_caps.specs.Images.{image_of, part_lines_of};
ghost use Rattle.client_caps.specs.Images.{image_params, join_params};
ghost use Rattle.client_caps.specs.Images.{with_param, word_at};
ghost use Rattle.client_caps.specs.Moment.{time_text_of};

use crate::caps::Caps;
use crate::moment::Moment;
use crate::time::time_tag;
use irc_line::Line;
use irc_names::is_nameable;
use irc_support::{Ranks, Support, name_words};
use net_view::{NetworkView, OutOfMemory, is_word};
use std::alloc::Allocator;

/// Whether this is what two neighbours say to each other alone.
fn is_link_command(command: &[u8]) -> bool
    ensures { result ≡ list_any (str_eq_ignore_ascii_case command.now) link_commands }
{
    command.eq_ignore_ascii_case(b"PING")
        || command.eq_ignore_ascii_case(b"PONG")
        || command.eq_ignore_ascii_case(b"ERROR")
        || command.eq_ignore_ascii_case(b"CAP")
        || command.eq_ignore_ascii_case(b"BATCH")
        || command.eq_ignore_ascii_case(b"AUTHENTICATE")
}

/// Whether a client with these capabilities is sent the line.
fn is_passed_on<A: Allocator>(caps: Caps, line: &Line<A>) -> bool
    ensures value { result ≡ is_passed_on caps line.now }
    ensures writable { IsTrue (is_writable line.now) }
{
    let command = line.command();
    !(is_link_command(command)
        || !caps.account_notify && command.eq_ignore_ascii_case(b"ACCOUNT")
        || !caps.away_notify && command.eq_ignore_ascii_case(b"AWAY"))
}

/// The account that a JOIN is shown with: the one that it names, else the one known before it, else
/// `*`.
fn account_joined<'a, V: NetworkView, A: Allocator>(view: &'a V, line: &'a Line<A>) -> &'a [u8]
    ensures { result.now ≡ account_joined (V.view view.now) line.now }
{
    if let Some(text) = line.param(1) {
        if is_word(text) {
            return text;
        }
    }
    let Some(nick) = line.source_nick() else {
        return b"*";
    };
    if !is_nameable(nick) {
        return b"*";
    }
    view.account_of(nick).unwrap_or(b"*")
}

/// Adds the symbol of the highest of some ranks.
fn push_highest<S: Allocator, A: Allocator>(
    support: &Support<S>,
    ranks: Ranks,
    out: &mut Vec<u8, A>,
) -> Result<(), OutOfMemory>
    ensures { OnOk result (out.new.items
        ≡ out.old.items ++ symbols_of support.now (take 1 ranks)) }
{
    if let Some(rank) = ranks.top() {
        if let Some(symbol) = support.symbol(rank) {
            out.push(symbol)?;
        }
    }
    Ok(())
}

/// Adds a space, but before the first word.
fn push_space<A: Allocator>(is_first: bool, out: &mut Vec<u8, A>) -> Result<(), OutOfMemory>
    ensures { OnOk result (out.new.items ≡ cond is_first out.old.items (out.old.items ++ 32 ∷ [])) }
{
    if !is_first {
        out.push(b' ')?;
    }
    Ok(())
}

/// The words of a `353`, each with the highest of its symbols alone, and one space between them.
#[tactic(auto, using(crate::proofs::JoinedTexts::joined_steps))]
fn highest_names<V: NetworkView, A: Allocator, B: Allocator>(
    alloc: B,
    view: &V,
    line: &Line<A>,
) -> Result<Vec<u8, B>, OutOfMemory>
    ensures { IfOk result (λ names. names.items ≡ join_with_byte 32 (map
        (highest_text (V.view view.now).settings)
        (split_words_in (V.view view.now).settings line.now))) }
{
    let support = view.support();
    let mut names = Vec::new(alloc);
    let mut is_first = true;
    for (ranks, rest) in name_words(support, line) {
        push_space(is_first, &mut names)?;
        is_first = false;
        push_highest(support, ranks, &mut names)?;
        names.extend_from_slice(rest)?;
    }
    Ok(names)
}

/// The parameters of a line, in order.
fn all_params<A: Allocator, B: Allocator>(
    alloc: B,
    line: &Line<A>,
) -> Result<Vec<&[u8], B>, OutOfMemory>
    ensures { IfOk result (λ params. map (λ p. p.now) params.items ≡ line.now.params) }
{
    let mut params = Vec::new(alloc);
    for param in line.params() {
        params.push(param)?;
    }
    Ok(params)
}

/// Puts these words in the place of a `353`'s own, parameter 3, if it has any.
#[tactic(auto, using(crate::proofs::ImageMade::put_fourth))]
fn put_names<'a>(params: &mut [&'a [u8]], names: &'a [u8])
    ensures { map (λ p. p.now) params.new
        ≡ with_param 3 (λ _. names.now) (map (λ p. p.now) params.old) }
{
    if let [_, _, _, words, ..] = params {
        *words = names;
    }
}

/// The line with these tags and parameters, and its own source and command.
fn with_params<A: Allocator, B: Allocator + Drop>(
    alloc: B,
    line: &Line<A>,
    tags: Option<&[u8]>,
    params: &[&[u8]],
) -> Result<Line<B>, OutOfMemory>
    requires { IsTrue (is_writable (line_of_parts (option_map (λ t. t.now) tags) line.now.source
        line.now.command (map (λ p. p.now) params.now))) }
    ensures { IfOk result (λ image. image ≡ line_of_parts (option_map (λ t. t.now) tags.entry)
        line.now.source line.now.command (map (λ p. p.now) params.now)) }
{
    Line::from_parts(alloc, tags, line.source(), line.command(), params)
}

/// What a JOIN of this channel is sent as.
fn joined<V: NetworkView, A: Allocator, B: Allocator + Drop>(
    alloc: B,
    view: &V,
    caps: Caps,
    line: &Line<A>,
    tags: Option<&[u8]>,
    channel: &[u8],
) -> Result<Line<B>, OutOfMemory>
    requires written { IsTrue (is_writable (line_of_parts (option_map (λ t. t.now) tags)
        line.now.source
        line.now.command (join_params (V.view view.now) caps line.now channel.now))) }
    requires tags { IsTrue (is_part (option_map (λ t. t.now) tags)) }
    ensures { IfOk result (λ image. image ≡ line_of_parts (option_map (λ t. t.now) tags.entry)
        line.now.source line.now.command
        (join_params (V.view view.now) caps line.now channel.now)) }
{
    if !caps.extended_join {
        return with_params(alloc, line, tags, &[channel]);
    }
    if line.param_count() > 2 {
        return line.copy_tagged_in(alloc, tags);
    }
    let account = account_joined(view, line);
    with_params(alloc, line, tags, &[channel, account, b""])
}

/// A `353` with these words.
fn relisted<'x, A: Allocator, B: Allocator + Copy + Drop>(
    alloc: B,
    line: &'x Line<A>,
    tags: Option<&[u8]>,
    names: &'x [u8],
) -> Result<Line<B>, OutOfMemory>
    requires { IsTrue (is_writable (line_of_parts (option_map (λ t. t.now) tags) line.now.source
        line.now.command (with_param 3 (λ _. names.now) line.now.params))) }
    ensures { IfOk result (λ image. image ≡ line_of_parts (option_map (λ t. t.now) tags.entry)
        line.now.source line.now.command (with_param 3 (λ _. names.now) line.now.params)) }
{
    let mut params = all_params(alloc, line)?;
    put_names(&mut params, names);
    with_params(alloc, line, tags, &params)
}

/// What a `353` is sent as to a client without multi-prefix.
fn listed<V: NetworkView, A: Allocator, B: Allocator + Copy + Drop>(
    alloc: B,
    view: &V,
    line: &Line<A>,
    tags: Option<&[u8]>,
) -> Result<Line<B>, OutOfMemory>
    requires names { has_command line.now (codes "353") ≡ true }
    requires tags { IsTrue (is_part (option_map (λ t. t.now) tags)) }
    requires written { IsTrue (is_writable (line_of_parts (option_map (λ t. t.now) tags)
        line.now.source line.now.command (with_param 3 (names_with_highest
        (V.view view.now).settings) line.now.params))) }
    ensures { IfOk result (λ image. image ≡ line_of_parts (option_map (λ t. t.now) tags.entry)
        line.now.source line.now.command (with_param 3 (names_with_highest
        (V.view view.now).settings) line.now.params)) }
{
    if line.param_count() < 4 {
        return line.copy_tagged_in(alloc, tags);
    }
    let names = highest_names(alloc, view, line)?;
    relisted(alloc, line, tags, &names)
}

/// What a line that is passed on is sent as, with these tags.
fn sent_as<V: NetworkView, A: Allocator, B: Allocator + Copy + Drop>(
    alloc: B,
    view: &V,
    caps: Caps,
    line: &Line<A>,
    tags: Option<&[u8]>,
) -> Result<Line<B>, OutOfMemory>
    requires tags { IsTrue (is_part (option_map (λ t. t.now) tags)) }
    requires written { IsTrue (is_writable (line_of_parts (option_map (λ t. t.now) tags)
        line.now.source line.now.command (image_params (V.view view.now) caps line.now))) }
    ensures { IfOk result (λ image. image ≡ line_of_parts (option_map (λ t. t.now) tags.entry)
        line.now.source line.now.command (image_params (V.view view.now) caps line.now)) }
{
    if line.is(b"JOIN") {
        return match line.param(0) {
            Some(channel) if view.support().is_channel(channel) => {
                joined(alloc, view, caps, line, tags, channel)
            }
            _ => line.copy_tagged_in(alloc, tags),
        };
    }
    if line.is(b"353") && !caps.multi_prefix {
        return listed(alloc, view, line, tags);
    }
    line.copy_tagged_in(alloc, tags)
}

/// What a client with these capabilities is sent in place of a line; `None` if it is sent
/// nothing. The view is the one before the line; the moment is when the line came.
///
/// | line | what is sent |
/// |---|---|
/// | PING, PONG, ERROR, CAP, BATCH, AUTHENTICATE | nothing |
/// | ACCOUNT without account-notify, AWAY without away-notify | nothing |
/// | JOIN of a channel, without extended-join | `:bob!b@h JOIN #c` |
/// | the same, with extended-join, of one or two parameters | `:bob!b@h JOIN #c bobacc :` |
/// | `353`, without multi-prefix | each word with the highest of its symbols alone |
/// | any other | the line |
///
/// The account of such a JOIN is the one that the line names, else the one known, else `*`. Tags of
/// the network go; with server-time the tag `time` comes, as
/// `@time=2020-01-02T03:04:05.678Z :bob!b@h PRIVMSG #c hi`: the line's own time, if it has one
/// of that form, else the moment (IRCv3 multi-prefix, extended-join, account-notify, away-notify,
/// server-time). A line that is sent as it is takes one allocation. `OutOfMemory` if an
/// allocation was refused, and for no other cause.
#[tactic(auto, unfolding(crate::specs::Images::image_of))]
pub fn image<V: NetworkView, A: Allocator, B: Allocator + Copy + Drop>(
    alloc: B,
    view: &V,
    caps: Caps,
    line: &Line<A>,
    moment: Moment,
) -> Result<Option<Line<B>>, OutOfMemory>
    ensures { IfOk result (λ image.
        image ≡ image_of (V.view view.now) caps (time_text_of moment.0) line.now) }
{
    view.comes_from_lines();
    if !is_passed_on(caps, line) {
        return Ok(None);
    }
    if caps.server_time {
        let tag = time_tag(line, moment);
        return Ok(Some(sent_as(alloc, view, caps, line, Some(&tag))?));
    }
    Ok(Some(sent_as(alloc, view, caps, line, None)?))
}

/// Adds that we leave the channel at a place, if there is one.
#[tactic(auto, using(crate::proofs::ImageMade::one_part))]
fn push_part<V: NetworkView, A: Allocator + Copy + Drop>(
    alloc: A,
    view: &V,
    place: usize,
    lines: &mut Vec<Line<A>, A>,
) -> Result<(), OutOfMemory>
    ensures { OnOk result (lines.new.items
        ≡ lines.old.items ++ option_to_list (slice_get (part_lines_of (V.view view.now)) place)) }
{
    view.comes_from_lines();
    if let Some(channel) = view.channel_at(place) {
        let line = Line::from_parts(alloc, None, view.own(), b"PART", &[channel.name])?;
        lines.push(line)?;
    }
    Ok(())
}

/// What a client is sent for a loss of the connection: that we leave each channel, as
/// `:Me PART #c`, in the order of the channels' keys. The view is the one before the loss.
/// `OutOfMemory` if an allocation was refused, and for no other reason.
#[tactic(auto, using(crate::proofs::ImageMade::part_steps))]
pub fn part_lines<V: NetworkView, A: Allocator + Copy + Drop>(
    alloc: A,
    view: &V,
) -> Result<Vec<Line<A>, A>, OutOfMemory>
    ensures { IfOk result (λ lines. lines.items ≡ part_lines_of (V.view view.now)) }
{
    let mut lines = Vec::new(alloc);
    for place in 0..view.channel_count() {
        push_part(alloc, view, place, &mut lines)?;
    }
    Ok(lines)
}
