//! What a client is answered to what it asks of us, and not of its network.

ghost use Rattle.std.specs.Prelude.{◌≡◌, ◌++◌, ◌∷◌, [], false, Bool, Option, IfOk, IfSome};
ghost use Rattle.std.specs.Prelude.{IsTrue, OnOk, codes, cond, map, option_map};
ghost use Rattle.std.specs.List.{join_with_byte};
ghost use Rattle.irc_line.specs.Line.{Parts};
ghost use Rattle.irc_line.specs.Writing.{is_writable, is_clean};
ghost use Rattle.irc_line.specs.Writing.{is_word as is_middle};
ghost use Rattle.irc_names.specs.Nick.{is_nameable};
ghost use Rattle.irc_support.specs.Text.{Text};
ghost use Rattle.net_view.specs.StateLines.{is_state_line};
ghost use Rattle.client_caps.specs.Caps.{Caps};
ghost use Rattle.client_caps.specs.Answers.{answer_to, asked, asked_by_cap, asked_text, cap_line};
ghost use Rattle.client_caps.specs.Answers.{from_bouncer, has_subcommand, name_shown, names_held};
ghost use Rattle.client_caps.specs.Answers.{pong_line, subcommand_shown};

use crate::caps::{Cap, Caps};
use irc_line::Line;
use net_view::{OutOfMemory, is_word};
use std::alloc::Allocator;

/// The names of the six capabilities, as `CAP LS` is answered.
const ALL_NAMES: &[u8] = b"multi-prefix extended-join account-notify away-notify server-time batch";

/// What a line of a client asks of us, and not of its network: CAP (IRCv3 capability negotiation)
/// and PING (RFC 2812, section 3.7.2). Commands, and the subcommand of CAP, which is its parameter
/// 0, are compared without regard to the case of ASCII letters.
#[derive(Clone, Copy, Debug, PartialEq, Eq)]
pub enum Asked {
    /// Which capabilities there are: `CAP LS` or `CAP LS 302`.
    Offered,
    /// Which capabilities the client holds: `CAP LIST`.
    Held,
    /// To hold capabilities, or to give them up: `CAP REQ :multi-prefix -batch`.
    Change,
    /// Nothing more of capabilities: `CAP END`.
    End,
    /// What we do not know, by another CAP.
    Unknown,
    /// Whether we are there: `PING x`.
    Ping,
    /// Nothing of us.
    Nothing,
}

/// Whether the subcommand of a client's CAP line is this.
fn has_subcommand<A: Allocator>(line: &Line<A>, word: &[u8]) -> bool
    ensures { result ≡ has_subcommand word.now line.now }
{
    match line.param(0) {
        Some(param) => param.eq_ignore_ascii_case(word),
        None => false,
    }
}

impl Asked {
    /// What a CAP line asks.
    fn by_cap<A: Allocator>(line: &Line<A>) -> Asked
        ensures { result ≡ asked_by_cap line.now }
    {
        if has_subcommand(line, b"LS") {
            Asked::Offered
        } else if has_subcommand(line, b"LIST") {
            Asked::Held
        } else if has_subcommand(line, b"REQ") {
            Asked::Change
        } else if has_subcommand(line, b"END") {
            Asked::End
        } else {
            Asked::Unknown
        }
    }

    /// What a line asks.
    pub fn of<A: Allocator>(line: &Line<A>) -> Asked
        ensures { result ≡ asked line.now }
    {
        if line.is(b"CAP") {
            Asked::by_cap(line)
        } else if line.is(b"PING") {
            Asked::Ping
        } else {
            Asked::Nothing
        }
    }
}

/// The capabilities that a `CAP REQ` names, its parameter 1, for [`read_request`]; empty if
/// there is none.
///
/// [`read_request`]: crate::read_request
#[tactic(auto, using(crate::proofs::AnswerTexts::asked_steps))]
pub fn asked_text<A: Allocator>(line: &Line<A>) -> &[u8]
    ensures text { result.now ≡ asked_text line.now }
    // It can be said again, as the last parameter of a line.
    ensures clean { IsTrue (is_clean result.now) }
{
    let _ = line.command();
    line.param(1).unwrap_or(b"")
}

/// A line of ours, as `:bnc CAP ann LIST :batch`.
fn from_bouncer<B: Allocator + Drop>(
    alloc: B,
    command: &[u8],
    params: &[&[u8]],
) -> Result<Line<B>, OutOfMemory>
    requires { IsTrue (is_writable (from_bouncer command.now (map (λ p. p.now) params.now))) }
    ensures { IfOk result (λ line. line ≡ from_bouncer command.now (map (λ p. p.now) params.now)) }
{
    Line::from_parts(alloc, None, Some(b"bnc"), command, params)
}

/// What a client is called: by its nick, if it has one yet, else `*`.
#[tactic(auto, using(crate::proofs::AnswerTexts::name_can_stand))]
fn name_shown(nick: Option<&[u8]>) -> &[u8]
    requires { IfSome nick (λ n. IsTrue (is_nameable n.now)) }
    ensures name { result.now ≡ name_shown (option_map (λ n. n.now) nick.entry) }
    ensures word { IsTrue (is_middle result.now) }
    ensures clean { IsTrue (is_clean result.now) }
{
    nick.unwrap_or(b"*")
}

/// `:bnc CAP ann LS :text`.
fn cap_line<B: Allocator + Drop>(
    alloc: B,
    name: &[u8],
    word: &[u8],
    text: &[u8],
) -> Result<Line<B>, OutOfMemory>
    requires name { IsTrue (is_middle name.now) }
    requires clean_name { IsTrue (is_clean name.now) }
    requires word { IsTrue (is_middle word.now) }
    requires clean_word { IsTrue (is_clean word.now) }
    requires clean_text { IsTrue (is_clean text.now) }
    ensures { IfOk result (λ line.
        line ≡ from_bouncer (codes "CAP") (name.now ∷ word.now ∷ text.now ∷ [])) }
{
    from_bouncer(alloc, b"CAP", &[name, word, text])
}

/// The names of the capabilities that are held, in the order in which they are offered.
fn names_held<B: Allocator>(alloc: B, held: Caps) -> Result<Vec<&'static [u8], B>, OutOfMemory>
    ensures { IfOk result (λ names. map (λ n. n.now) names.items ≡ names_held held) }
{
    let mut names = Vec::with_capacity(alloc, Cap::ALL.len())?;
    for cap in Cap::ALL {
        if held.holds(cap) {
            names.push(cap.name())?;
        }
    }
    Ok(names)
}

/// Adds a word to a text, with a space between them but before the first.
fn push_word<B: Allocator>(
    text: &mut Vec<u8, B>,
    is_first: bool,
    word: &[u8],
) -> Result<(), OutOfMemory>
    ensures { OnOk result (text.new.items
        ≡ cond is_first text.old.items (text.old.items ++ 32 ∷ []) ++ word.now) }
{
    if !is_first {
        text.push(b' ')?;
    }
    text.extend_from_slice(word)
}

/// The words, with one space between them.
#[tactic(auto, using(crate::proofs::JoinedTexts::joined_steps))]
fn joined<B: Allocator>(alloc: B, words: &[&[u8]]) -> Result<Vec<u8, B>, OutOfMemory>
    ensures { IfOk result (λ text. text.items ≡ join_with_byte 32 (map (λ w. w.now) words.now)) }
{
    let mut text = Vec::new(alloc);
    let mut is_first = true;
    for word in words {
        push_word(&mut text, is_first, word)?;
        is_first = false;
    }
    Ok(text)
}

/// The answer to `CAP LIST`.
fn held_line<B: Allocator + Copy + Drop>(
    alloc: B,
    name: &[u8],
    held: Caps,
) -> Result<Line<B>, OutOfMemory>
    requires name { IsTrue (is_middle name.now) }
    requires clean_name { IsTrue (is_clean name.now) }
    ensures { IfOk result (λ line. line ≡ from_bouncer (codes "CAP")
        (name.now ∷ codes "LIST" ∷ join_with_byte 32 (names_held held) ∷ [])) }
{
    let names = names_held(alloc, held)?;
    let text = joined(alloc, &names)?;
    cap_line(alloc, name, b"LIST", &text)
}

/// The subcommand of a CAP, as it can be in an answer: `*` if it is missing or no word.
#[tactic(auto, using(crate::proofs::AnswerTexts::param_steps))]
fn subcommand_shown<A: Allocator>(line: &Line<A>) -> &[u8]
    ensures shown { result.now ≡ subcommand_shown line.now }
    ensures word { IsTrue (is_middle result.now) }
    ensures clean { IsTrue (is_clean result.now) }
{
    let _ = line.command();
    match line.param(0) {
        Some(word) if is_word(word) => word,
        _ => b"*",
    }
}

/// 410 ERR_INVALIDCAPCMD.
fn unknown_line<A: Allocator, B: Allocator + Drop>(
    alloc: B,
    name: &[u8],
    line: &Line<A>,
) -> Result<Line<B>, OutOfMemory>
    requires name { IsTrue (is_middle name.now) }
    requires clean_name { IsTrue (is_clean name.now) }
    ensures { IfOk result (λ answer. answer ≡ from_bouncer (codes "410")
        (name.now ∷ subcommand_shown line.now ∷ codes "Invalid CAP command" ∷ [])) }
{
    let subcommand = subcommand_shown(line);
    from_bouncer(alloc, b"410", &[name, subcommand, b"Invalid CAP command"])
}

/// `:bnc PONG bnc x`.
#[tactic(auto, using(crate::proofs::AnswerTexts::param_steps))]
fn pong_line<A: Allocator, B: Allocator + Drop>(
    alloc: B,
    line: &Line<A>,
) -> Result<Line<B>, OutOfMemory>
    ensures { IfOk result (λ answer. answer ≡ pong_line line.now) }
{
    let _ = line.command();
    match line.param(0) {
        Some(x) => from_bouncer(alloc, b"PONG", &[b"bnc", x]),
        None => from_bouncer(alloc, b"PONG", &[b"bnc"]),
    }
}

/// What we, and not its network, answer a client's line; `None` if the line asks
/// nothing of us, or ends the negotiation of capabilities. The client has this nick, or none yet,
/// and holds these capabilities; the caller says whether a request is granted, reading
/// it by [`asked_text`] and [`read_request`](crate::read_request).
///
/// | line | answer |
/// |---|---|
/// | `CAP LS` | `:bnc CAP ann LS :` and the six names |
/// | `CAP LIST` | `:bnc CAP ann LIST :` and the names that are held, in the same order |
/// | `CAP REQ text` | `:bnc CAP ann ACK text`, or `NAK`; a missing text is empty |
/// | `CAP END` | nothing |
/// | other `CAP` | `:bnc 410 ann SUB :Invalid CAP command`; `*` if SUB is missing or no word |
/// | `PING x` | `:bnc PONG bnc x`; `:bnc PONG bnc` without a parameter |
/// | any other | nothing |
///
/// A client without a nick is called `*`. `OutOfMemory` if an allocation was refused,
/// and for no other cause.
pub fn answer<A: Allocator, B: Allocator + Copy + Drop>(
    alloc: B,
    nick: Option<&[u8]>,
    held: Caps,
    is_granted: bool,
    line: &Line<A>,
) -> Result<Option<Line<B>>, OutOfMemory>
    requires { IfSome nick (λ n. IsTrue (is_nameable n.now)) }
    ensures { IfOk result (λ answer. answer
        ≡ answer_to (option_map (λ n. n.now) nick.entry) held is_granted line.now) }
{
    let name = name_shown(nick);
    let answer = match Asked::of(line) {
        Asked::Offered => cap_line(alloc, name, b"LS", ALL_NAMES),
        Asked::Held => held_line(alloc, name, held),
        Asked::Change if is_granted => cap_line(alloc, name, b"ACK", asked_text(line)),
        Asked::Change => cap_line(alloc, name, b"NAK", asked_text(line)),
        Asked::Unknown => unknown_line(alloc, name, line),
        Asked::Ping => pong_line(alloc, line),
        Asked::End | Asked::Nothing => return Ok(None),
    };
    Ok(Some(answer?))
}

/// No view reads an answer: none is a state line.
#[tactic(auto, unfolding(net_view::specs::StateLines::state_lines))]
pub fn answers_tell_nothing()
    ensures { (nick : Option Text) (held : Caps) (granted : Bool) (line : Parts) →
        IfSome (answer_to nick held granted line) (λ answer. is_state_line answer ≡ false) }
{}
