//! The login of a client, line by line.

ghost use Rattle.std.specs.Prelude.{◌≡◌, ◌<◌, ◌++◌, ◌∷◌, [], List, IfOk, IfSome, OnErr};
ghost use Rattle.std.specs.Prelude.{OnOk, is_some, option_map};
ghost use Rattle.irc_line.specs.Line.{Parts};
ghost use Rattle.sessions.specs.Given.{held_in, is_complete, is_ready, negotiation_in};
ghost use Rattle.sessions.specs.Given.{nick_in, pass_in, user_in};
ghost use Rattle.sessions.specs.Answers.{answer_to, claim_in, ends_by};
ghost use Rattle.sessions.specs.Taken.{HasTaken, IsAt, answer_of};

use crate::OutOfMemory;
use crate::claim::Claim;
use crate::given::{copied, given, latest, replace};
use crate::negotiation::Negotiation;
use crate::replies::{refusal, replies};
use client_caps::Caps;
use irc_line::Line;
use std::alloc::Global;
use std::marker::Model;

/// What follows from one line of a client.
#[derive(Drop)]
pub enum LoginStep {
    /// These lines are to be sent; the login goes on.
    Send(Vec<Line>),
    /// Nothing is missing: this is what the client logs in as.
    Done(Claim),
    /// It is over; these lines are to be sent.
    Closed(Vec<Line>),
}

/// The login of a client (RFC 2812, section 3.1; IRCv3 capability negotiation).
///
/// ```text
/// <- CAP LS 302
/// -> :bnc CAP * LS :multi-prefix extended-join account-notify away-notify server-time batch
/// <- NICK x
/// <- USER ann@pc/net 0 * :A
/// <- PASS bc
/// <- CAP REQ batch
/// -> :bnc CAP * ACK batch
/// <- CAP END
/// ```
#[derive(Drop)]
pub struct Login {
    alloc: Global,
    has_nick: bool,
    user: Option<Vec<u8>>,
    pass: Option<Vec<u8>>,
    negotiation: Negotiation,
    // how many lines came
    count: usize,
    is_over: bool,
}

impl Model for Login {
    ghost use Rattle.std.specs.Prelude.{◌≤◌, option_map};
    ghost use Rattle.sessions.specs.Progress.{Progress};

    ghost Value = { Progress };

    ghost view = { λ login. record {
      has_nick = login.has_nick;
      user = option_map (λ text. text.items) login.user;
      pass = option_map (λ text. text.items) login.pass;
      negotiation = login.negotiation;
      count = login.count;
      is_over = login.is_over;
    } };

    ghost invariant = { λ login. login.count ≤ 199 };
}

impl Login {
    /// A login that has received no line.
    pub fn new(alloc: Global) -> Login
        ensures { HasTaken [] result }
    {
        Login {
            alloc,
            has_nick: false,
            user: None,
            pass: None,
            negotiation: Negotiation::none(),
            count: 0,
            is_over: false,
        }
    }

    /// Whether a nick came, the line's included.
    fn has_nick_after(&self, line: &Line) -> bool
        ensures { (before : List Parts) → IsAt before self.now →
            result ≡ is_some (nick_in (before ++ line.now ∷ [])) }
    {
        self.has_nick || given(line, b"NICK").is_some()
    }

    /// What USER gave last, the line included.
    fn user_after<'a>(&'a self, line: &'a Line) -> Option<&'a [u8]>
        ensures { (before : List Parts) → IsAt before self.now →
            option_map (λ text. text.now) result ≡ user_in (before ++ line.now ∷ []) }
    {
        latest(line, b"USER", &self.user)
    }

    /// What PASS gave last, the line included.
    fn pass_after<'a>(&'a self, line: &'a Line) -> Option<&'a [u8]>
        ensures { (before : List Parts) → IsAt before self.now →
            option_map (λ text. text.now) result ≡ pass_in (before ++ line.now ∷ []) }
    {
        latest(line, b"PASS", &self.pass)
    }

    /// Whether, after a line, nothing is missing but PASS, or nothing at all; the negotiation is
    /// the one after the line.
    fn is_ready_after(&self, line: &Line, negotiation: Negotiation) -> bool
        ensures { (before : List Parts) → IsAt before self.now →
            negotiation ≡ negotiation_in (before ++ line.now ∷ []) →
            result ≡ is_ready (before ++ line.now ∷ []) }
    {
        self.has_nick_after(line) && self.user_after(line).is_some() && !negotiation.is_open
    }

    /// How the login ends by a line after which nothing is missing; `None` if something is.
    fn ended_by(
        &self,
        line: &Line,
        ready: bool,
        held: Caps,
    ) -> Result<Option<LoginStep>, OutOfMemory>
        ensures some { (before : List Parts) → IsAt before self.now →
            held ≡ held_in (before ++ line.now ∷ []) →
            IfOk result (λ step. IfSome step (λ s.
            answer_of s ≡ ends_by (claim_in (before ++ line.now ∷ [])))) }
        ensures complete { (before : List Parts) → IsAt before self.now →
            ready ≡ is_ready (before ++ line.now ∷ []) →
            IfOk result (λ step. is_some step ≡ is_complete (before ++ line.now ∷ [])) }
    {
        match (self.user_after(line), self.pass_after(line)) {
            (Some(user), Some(pass)) if ready => {
                match Claim::of(self.alloc, user, pass, held)? {
                    Some(claim) => Ok(Some(LoginStep::Done(claim))),
                    None => Ok(Some(LoginStep::Closed(refusal(self.alloc)?))),
                }
            }
            _ => Ok(None),
        }
    }

    /// Takes a line of the client, and says what follows from it; once it has ended, that nothing
    /// is to be sent. After a refused allocation the login is as it was.
    ///
    /// It is done when NICK, USER and PASS came and no negotiation of capabilities is open. A later
    /// line replaces the earlier; one without a parameter is ignored. A negotiation is open from
    /// `CAP LS` or `CAP REQ` on, until `CAP END`.
    ///
    /// | line | what follows |
    /// |---|---|
    /// | CAP, PING | as by [`client_caps::answer`]; a request is granted if it can be taken |
    /// | NICK, USER, PASS | nothing |
    /// | QUIT, or the 200th line | closed, with no line |
    /// | any other | `:bnc 451 * :You have not registered` |
    ///
    /// A login that names no network is closed with `:bnc 464 * :Password incorrect`.
    pub fn line(&mut self, line: &Line) -> Result<LoginStep, OutOfMemory>
        ensures answer { (before : List Parts) → HasTaken before self.old →
            IfOk result (λ step. answer_of step ≡ answer_to before line.now) }
        ensures taken { (before : List Parts) → HasTaken before self.old →
            OnOk result (HasTaken (before ++ line.now ∷ []) self.new) }
        ensures err { OnErr result (self.new ≡ self.old) }
    {
        let alloc = self.alloc;
        if self.is_over {
            return Ok(LoginStep::Send(Vec::new(alloc)));
        }
        if line.is(b"QUIT") {
            self.is_over = true;
            return Ok(LoginStep::Closed(Vec::new(alloc)));
        }
        let negotiation = self.negotiation.after(line);
        let is_ready = self.is_ready_after(line, negotiation);
        if let Some(step) = self.ended_by(line, is_ready, negotiation.held)? {
            self.is_over = true;
            return Ok(step);
        }
        if self.count == 199 {
            self.is_over = true;
            return Ok(LoginStep::Closed(Vec::new(alloc)));
        }
        let lines = replies(alloc, self.negotiation.held, line)?;
        let user = copied(alloc, given(line, b"USER"))?;
        let pass = copied(alloc, given(line, b"PASS"))?;
        self.has_nick = self.has_nick_after(line);
        replace(&mut self.user, user);
        replace(&mut self.pass, pass);
        self.negotiation = negotiation;
        self.count += 1;
        Ok(LoginStep::Send(lines))
    }
}
