//! 005 RPL_ISUPPORT: the settings in force, each line with all the tokens that it has room for
//! (isupport draft, section 2).

ghost use Rattle.std.specs.Prelude.{◌≡◌, ◌++◌, ◌+◌, ◌∷◌, [], ◌&&◌, IfOk, OnOk, map, nat_le, length};
ghost use Rattle.std.specs.Prelude.{if◌then◌else◌, true, nat_eq, nat_lt, codes, option_map};
ghost use Rattle.std.specs.List.{flat_map};
ghost use Rattle.irc_line.specs.Writing.{written};
ghost use Rattle.irc_support.specs.Written.{token_text};
ghost use Rattle.client_caps.specs.Answers.{from_bouncer};
ghost use Rattle.welcome.specs.Burst.{settings_lines};

use crate::greeting::{own_nick, push_reply};
use crate::names::has_room;
use irc_support::Support;
use net_view::{NetworkView, OutOfMemory};
use std::alloc::Allocator;

/// How many tokens a line has at most, so that with the nick and the text it has no more than
/// fifteen parameters (RFC 2812, section 2.3).
const TOKEN_LIMIT: usize = 12;

/// A token as it is written: its name, and after `=` its value, if it has one.
fn written_token<A: Allocator + Copy>(
    alloc: A,
    name: &[u8],
    value: Option<&[u8]>,
) -> Result<Vec<u8, A>, OutOfMemory>
    ensures { IfOk result (λ text. text.items
        ≡ token_text (name.now, option_map (λ v. v.now) value.entry)) }
{
    let mut text = Vec::from_slice(alloc, name)?;
    if let Some(value) = value {
        text.push(b'=')?;
        text.extend_from_slice(value)?;
    }
    Ok(text)
}

/// All tokens as they are written, in their order.
#[tactic(auto, using(crate::proofs::TokenRows::token_steps))]
fn written_tokens<A: Allocator + Copy, B: Allocator>(
    alloc: A,
    support: &Support<B>,
) -> Result<Vec<Vec<u8, A>, A>, OutOfMemory>
    ensures { IfOk result (λ texts. map (λ t. t.items) texts.items
        ≡ map token_text support.now) }
{
    let count = support.token_count();
    let mut texts = Vec::with_capacity(alloc, count)?;
    for place in 0..count {
        if let Some((name, value)) = support.token(place) {
            let text = written_token(alloc, name, value)?;
            texts.push_reserved(text);
        }
    }
    Ok(texts)
}

/// Adds a 005 of these tokens, if there are any: as
/// `:bnc 005 Me NETWORK=Net CHANTYPES=# :are supported by this server`.
fn push_tokens<'x, A: Allocator + Copy>(
    text: &mut Vec<u8, A>,
    nick: &'x [u8],
    tokens: &'x [Vec<u8, A>],
) -> Result<(), OutOfMemory>
    ensures { OnOk result (text.new.items ≡ text.old.items
        ++ (if nat_eq (length tokens.now) 0 then [] else written (from_bouncer (codes "005")
        (nick.now ∷ (map (λ t. t.items) tokens.now
        ++ codes "are supported by this server" ∷ []))))) }
{
    if tokens.is_empty() {
        return Ok(());
    }
    let mut params = Vec::with_capacity(*text.allocator(), tokens.len() + 2)?;
    params.push_reserved(nick);
    for token in tokens {
        params.push_reserved(token.as_slice());
    }
    params.push_reserved(b"are supported by this server");
    push_reply(text, b"005", &params)
}

/// Whether the token goes onto a row of this many tokens that take `len` bytes. A token goes onto
/// an empty row.
fn has_token_room(count: usize, len: usize, token: &[u8]) -> bool
    ensures { result ≡ (if nat_eq count 0 then true else
        nat_le (len + 1 + length token.now) 400 && nat_lt count 12) }
{
    count == 0 || has_room(true, len, token) && count < TOKEN_LIMIT
}

/// Adds the 005 lines; none if there is no token.
pub fn push_settings<V: NetworkView, A: Allocator + Copy>(
    text: &mut Vec<u8, A>,
    view: &V,
) -> Result<(), OutOfMemory>
    ensures { OnOk result (text.new.items
        ≡ text.old.items ++ flat_map written (settings_lines (V.view view.now))) }
{
    let nick = own_nick(view);
    let tokens = written_tokens(*text.allocator(), view.support())?;
    // the row's first token, and how many bytes its tokens take, with the spaces between them
    let mut start = 0;
    let mut len = 0;
    for place in 0..tokens.len() {
        let token = &tokens[place];
        if !has_token_room(place - start, len, token) {
            push_tokens(text, nick, &tokens[start..place])?;
            start = place;
        }
        len = if start < place {
            len + 1 + token.len()
        } else {
            token.len()
        };
    }
    push_tokens(text, nick, &tokens[start..])
}
