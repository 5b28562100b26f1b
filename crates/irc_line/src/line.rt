//! One line.

ghost use Rattle.std.specs.Prelude.{◌≡◌, ◌≤◌, ◌↔◌, ◌++◌, ℕ, List, Some, IsTrue, false, drop};
ghost use Rattle.std.specs.Prelude.{length, map, slice_get, option_map, IfOk, IfSome, IfNone, OnOk};
ghost use Rattle.std.specs.Prelude.{OnErr, IsErrOf};
ghost use Rattle.std.specs.List.{flat_map};
ghost use Rattle.irc_line.specs.Line.{Parts, nick_of, has_command, is_command};
ghost use Rattle.irc_line.specs.Grammar.{Spells};
ghost use Rattle.irc_line.specs.Reading.{body, line_of};
ghost use Rattle.irc_line.specs.Tags.{time_of};
ghost use Rattle.irc_line.specs.Writing.{param_text, text_of, written, is_writable};
ghost use Rattle.irc_line.specs.Writing.{line_of_parts, untagged_line, retagged, is_part};

use crate::OutOfMemory;
use crate::param_list::Params;
use crate::scan::{
    count_params, is_a_command, is_clean, nick, nth_param, split_marked, split_token, trim,
};
use crate::tags::{is_time, tag_value};
use crate::writing::{
    are_all_params, is_a_part, params_room, part_room, push_all, push_marked, push_params,
};
use std::alloc::{Allocator, Global};
use std::marker::Model;
use thiserror::Error;

/// A line: its tags, its source, its command and its parameters, as in
/// `@time=2020-01-02T03:04:05.678Z :bob!b@h PRIVMSG #c :hi all`.
///
/// It is a copy of the line's text in one allocation, in which the parts are found on demand.
#[derive(Clone, Drop)]
pub struct Line<A: Allocator = Global> {
    text: Vec<u8, A>,
    // where the command begins
    command_at: usize,
}

impl<A: Allocator> Model for Line<A> {
    ghost use Rattle.std.specs.Prelude.{◌≡◌, ◌≤◌, IsTrue, length, drop};
    ghost use Rattle.irc_line.specs.Line.{Parts};
    ghost use Rattle.irc_line.specs.Reading.{parts_of, is_line, body};

    ghost Value = { Parts };

    ghost view = { λ l. parts_of l.text.items };

    ghost invariant = { λ l.
        IsTrue (is_line l.text.items) × (l.command_at ≤ length l.text.items) ×
        (drop l.command_at l.text.items ≡ body l.text.items) };
}

/// Why parts are no line.
#[derive(Clone, Copy, Debug, PartialEq, Eq, Error)]
pub enum MakeError {
    /// There is no text that is read as these parts: a part that holds a space, a NUL, a CR or an
    /// LF where none may be, an empty tag part or source, a command that is none, or a parameter
    /// before the last that is no word.
    #[error("not a line")]
    NotALine,
    /// An allocation was refused.
    #[error("out of memory")]
    OutOfMemory,
}

impl From<OutOfMemory> for MakeError {
    ghost use Rattle.irc_line.specs.declared.line.MakeError.TheVariants as fault;

    ghost from_gives = { λ _ e. e ≡ fault.OutOfMemory };

    fn from(_e: OutOfMemory) -> MakeError {
        MakeError::OutOfMemory
    }
}

/// Where the command begins.
#[tactic(auto, using(crate::proofs::Tokens::body_drop, crate::proofs::Tokens::body_length))]
fn body_place(text: &[u8]) -> usize
    ensures within { result ≤ length text.now }
    ensures at { drop result text.now ≡ body text.now }
{
    let (_, rest) = split_marked(b'@', trim(text));
    let (_, rest) = split_marked(b':', rest);
    text.len() - rest.len()
}

impl<A: Allocator> Line<A> {
    fn parse(alloc: A, text: &[u8]) -> Result<Option<Line<A>>, OutOfMemory>
    where
        A: Drop,
        ensures { IfOk result (λ line. line ≡ line_of text.now) }
    {
        let command_at = body_place(text);
        let (command, _) = split_token(&text[command_at..]);
        if !is_clean(text) || !is_a_command(command) {
            return Ok(None);
        }
        let text = Vec::from_slice(alloc, text)?;
        Ok(Some(Line { text, command_at }))
    }

    /// The line that the text is, without its ending; `None` if the text is outside the grammar
    /// (RFC 2812, section 2.3.1; IRCv3 message-tags). One allocation, of the text's length.
    pub fn read(alloc: A, text: &[u8]) -> Result<Option<Line<A>>, OutOfMemory>
    where
        A: Drop,
        ensures value { IfOk result (λ line. line ≡ line_of text.now) }
        // What is read is what the text spells.
        ensures found { IfOk result (λ line. IfSome line (λ l. Spells l text.now)) }
        // Nothing is read only if the text spells no line.
        ensures none { IfOk result (λ line. IfNone line ((l : Parts) → Spells l text.now → ⊥)) }
    {
        Line::<A>::parse(alloc, text)
    }

    /// The line of these parts, as [`Line::make`], for a caller that knows beforehand that some
    /// text is read as them, as of the parts of lines in hand. One allocation.
    pub fn from_parts(
        alloc: A,
        tags: Option<&[u8]>,
        source: Option<&[u8]>,
        command: &[u8],
        params: &[&[u8]],
    ) -> Result<Line<A>, OutOfMemory>
    where
        A: Drop,
        requires { IsTrue (is_writable (line_of_parts (option_map (λ t. t.now) tags)
            (option_map (λ s. s.now) source) command.now (map (λ p. p.now) params.now))) }
        ensures { IfOk result (λ line. line ≡ line_of_parts (option_map (λ t. t.now) tags.entry)
            (option_map (λ s. s.now) source.entry) command.now (map (λ p. p.now) params.now)) }
    {
        let room = part_room(tags)
            .saturating_add(part_room(source))
            .saturating_add(command.len())
            .saturating_add(params_room(params));
        let mut text = Vec::with_capacity(alloc, room)?;
        push_marked(b'@', tags, &mut text)?;
        push_marked(b':', source, &mut text)?;
        text.extend_from_slice(command)?;
        push_all(params, &mut text)?;
        let command_at = body_place(&text);
        Ok(Line { text, command_at })
    }

    /// A line of these parts, without tags, as in `:a PRIVMSG #c :hi all`. `NotALine` comes exactly
    /// if no text is read as these parts, and before memory is asked for.
    pub fn make(
        alloc: A,
        source: Option<&[u8]>,
        command: &[u8],
        params: &[&[u8]],
    ) -> Result<Line<A>, MakeError>
    where
        A: Drop,
        ensures made { IfOk result (λ line.
            line ≡ untagged_line (option_map (λ s. s.now) source.entry) command.now
            (map (λ p. p.now) params.now)) }
        ensures not_a_line { IsErrOf result MakeError.NotALine ↔
            (is_writable (untagged_line (option_map (λ s. s.now) source.entry) command.now
            (map (λ p. p.now) params.now)) ≡ false) }
    {
        if !is_a_part(source) || !is_a_command(command) || !are_all_params(params) {
            return Err(MakeError::NotALine);
        }
        Ok(Line::from_parts(alloc, None, source, command, params)?)
    }

    /// A copy of the line over another allocator.
    pub fn copy_in<B: Allocator>(&self, alloc: B) -> Result<Line<B>, OutOfMemory>
    where
        B: Drop,
        ensures { IfOk result (λ line. line ≡ self.now) }
    {
        let text = Vec::from_slice(alloc, &self.text)?;
        Ok(Line {
            text,
            command_at: self.command_at,
        })
    }

    /// A copy of the line over another allocator, with these tags, or none, in place of its own.
    /// The caller ensures that the tags are no empty text and hold no space, NUL, CR or LF.
    /// One allocation.
    pub fn copy_tagged_in<B: Allocator>(
        &self,
        alloc: B,
        tags: Option<&[u8]>,
    ) -> Result<Line<B>, OutOfMemory>
    where
        B: Drop,
        requires { IsTrue (is_part (option_map (λ t. t.now) tags)) }
        ensures { IfOk result (λ line.
            line ≡ retagged self.now (option_map (λ t. t.now) tags.entry)) }
    {
        let room = part_room(tags).saturating_add(self.text.len() + 1);
        let mut text = Vec::with_capacity(alloc, room)?;
        push_marked(b'@', tags, &mut text)?;
        push_marked(b':', self.source(), &mut text)?;
        self.write_body(&mut text)?;
        let command_at = body_place(&text);
        Ok(Line { text, command_at })
    }

    /// A line of the same parameters over another allocator, with this source, or none, this
    /// command and no tags. The caller ensures that the source is no empty text and holds no space,
    /// NUL, CR or LF, and that the command is one. One allocation.
    pub fn copy_as_in<B: Allocator>(
        &self,
        alloc: B,
        source: Option<&[u8]>,
        command: &[u8],
    ) -> Result<Line<B>, OutOfMemory>
    where
        B: Drop,
        requires source { IsTrue (is_part (option_map (λ s. s.now) source)) }
        requires command { IsTrue (is_command command.now) }
        ensures { IfOk result (λ line. line ≡ untagged_line
            (option_map (λ s. s.now) source.entry) command.now self.now.params) }
    {
        let room = part_room(source)
            .saturating_add(command.len())
            .saturating_add(self.text.len());
        let mut text = Vec::with_capacity(alloc, room)?;
        push_marked(b':', source, &mut text)?;
        text.extend_from_slice(command)?;
        self.write_params(&mut text)?;
        let command_at = body_place(&text);
        Ok(Line { text, command_at })
    }

    /// What follows the `@`.
    pub fn tags(&self) -> Option<&[u8]>
        ensures { option_map (λ part. part.now) result ≡ self.now.tags }
    {
        split_marked(b'@', trim(&self.text)).0
    }

    /// What follows the first `:`, as `bob!b@h`.
    pub fn source(&self) -> Option<&[u8]>
        ensures { option_map (λ part. part.now) result ≡ self.now.source }
    {
        let (_, rest) = split_marked(b'@', trim(&self.text));
        split_marked(b':', rest).0
    }

    /// The nick of the source: the text before its first `!`, else before its first `@`, else
    /// all of it.
    pub fn source_nick(&self) -> Option<&[u8]>
        ensures { option_map (λ part. part.now) result ≡ option_map nick_of self.now.source }
    {
        Some(nick(self.source()?))
    }

    /// The command, in the letters in which it came.
    #[tactic(auto, using(crate::proofs::Making::value_writable))]
    pub fn command(&self) -> &[u8]
        ensures value { result.now ≡ self.now.command }
        // A line in hand can be written: lines of its parts can be made.
        ensures writable { IsTrue (is_writable self.now) }
    {
        split_token(&self.text[self.command_at..]).0
    }

    /// Whether this is the command, without regard to the case of ASCII letters.
    pub fn is(&self, command: &[u8]) -> bool
        ensures { result ≡ has_command self.now command.now }
    {
        self.command().eq_ignore_ascii_case(command)
    }

    /// The parameters in order, a last one without its colon: of `PRIVMSG #c :hi all` those are
    /// `#c` and `hi all`. It takes no memory, and going over all of them is one pass over the line.
    pub fn params(&self) -> Params<'_>
        ensures { result ≡ self.now.params }
    {
        Params::of(split_token(&self.text[self.command_at..]).1)
    }

    /// The parameter at this place, counted from 0, a last one without its colon; `None` from
    /// `param_count` on. It looks from the first parameter on: to go over all, take `params`.
    pub fn param(&self, place: usize) -> Option<&[u8]>
        ensures { option_map (λ param. param.now) result ≡ slice_get self.now.params place }
    {
        nth_param(split_token(&self.text[self.command_at..]).1, place)
    }

    /// How many parameters the line has. RFC 2812 allows fifteen; here there is no limit.
    pub fn param_count(&self) -> usize
        ensures { result ≡ length self.now.params }
    {
        count_params(split_token(&self.text[self.command_at..]).1)
    }

    /// The value of the first `time=` among the tags, if it has the form
    /// `2020-01-02T03:04:05.678Z` (IRCv3 server-time); that the numbers name a moment is not
    /// checked.
    pub fn time_tag(&self) -> Option<&[u8]>
        ensures { option_map (λ value. value.now) result ≡ time_of self.now }
    {
        let value = tag_value(b"time=", self.tags()?)?;
        if is_time(value) { Some(value) } else { None }
    }

    /// Adds the parameters.
    fn write_params<B: Allocator>(&self, out: &mut Vec<u8, B>) -> Result<(), OutOfMemory>
        ensures ok { OnOk result
            (out.new.items ≡ out.old.items ++ flat_map param_text self.now.params) }
    {
        let (_, params) = split_token(&self.text[self.command_at..]);
        push_params(params, out)?;
        Ok(())
    }

    /// Adds the command and the parameters.
    fn write_body<B: Allocator>(&self, out: &mut Vec<u8, B>) -> Result<(), OutOfMemory>
        ensures ok { OnOk result
            (out.new.items
            ≡ out.old.items ++ (self.now.command ++ flat_map param_text self.now.params)) }
        ensures err { OnErr result ((more : List ℕ) × (out.new.items ≡ out.old.items ++ more)) }
    {
        let (command, params) = split_token(&self.text[self.command_at..]);
        out.extend_from_slice(command)?;
        push_params(params, out)?;
        Ok(())
    }

    fn write_parts<B: Allocator>(&self, out: &mut Vec<u8, B>) -> Result<(), OutOfMemory>
        ensures ok { OnOk result (out.new.items ≡ out.old.items ++ written self.now) }
        ensures err { OnErr result ((more : List ℕ) × (out.new.items ≡ out.old.items ++ more)) }
    {
        push_marked(b'@', self.tags(), out)?;
        push_marked(b':', self.source(), out)?;
        self.write_body(out)?;
        out.extend_from_slice(b"\r\n")?;
        Ok(())
    }

    /// Appends the line and CR LF. The last parameter gets a colon only if it is
    /// empty, begins with a colon or holds a space. After an error `out` is unchanged.
    #[tactic(auto, using(crate::proofs::Making::value_again))]
    pub fn write<B: Allocator>(&self, out: &mut Vec<u8, B>) -> Result<(), OutOfMemory>
        ensures ok { OnOk result (out.new.items ≡ out.old.items ++ written self.now) }
        ensures err { OnErr result (out.new.items ≡ out.old.items) }
        // What is written is read again.
        ensures again { line_of (text_of self.now) ≡ Some self.now }
    {
        out.reserve(self.text.len() + 3)?;
        let len = out.len();
        let done = self.write_parts(out);
        if done.is_err() {
            out.truncate(len);
        }
        done
    }
}

impl<A: Allocator + Copy> Line<A> {
    /// Gives the line these tags, or none, in place of its own. `NotALine` comes exactly if the
    /// tags are empty or hold a space, a NUL, a CR or an LF, and before memory is asked for. After
    /// an error the line is unchanged.
    pub fn set_tags(&mut self, tags: Option<&[u8]>) -> Result<(), MakeError>
        ensures taken { OnOk result
            (self.new ≡ retagged self.old (option_map (λ t. t.now) tags.entry)) }
        ensures not_a_line { IsErrOf result MakeError.NotALine
            ↔ (is_part (option_map (λ t. t.now) tags.entry) ≡ false) }
        ensures kept { OnErr result (self.new ≡ self.old) }
    {
        if !is_a_part(tags) {
            return Err(MakeError::NotALine);
        }
        *self = self.copy_tagged_in(*self.text.allocator(), tags)?;
        Ok(())
    }
}
