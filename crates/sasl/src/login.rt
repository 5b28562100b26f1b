//! A login, line by line.

ghost use Rattle.std.specs.Prelude.{◌≡◌, ◌++◌, ◌∷◌, [], ◌&&◌, ◌||◌, not, true, List, IfOk, OnErr, OnOk};
ghost use Rattle.std.specs.Prelude.{if◌then◌else◌, option_map};
ghost use Rattle.irc_line.specs.Line.{Parts};
ghost use Rattle.sasl.specs.Login.{HasTaken, answer_of, answer_to, is_failure, is_logged_in};
ghost use Rattle.sasl.specs.Login.{mechanism_named, nothing, sends};
ghost use Rattle.sasl.specs.Response.{Account, authenticate, cap_end, mechanism_of};
ghost use Rattle.sasl.specs.Response.{response_lines};

use crate::OutOfMemory;
use crate::response::{authenticate, response_lines, response_of};
use crate::said::Said;
use irc_line::Line;
use std::alloc::Global;
use std::marker::Model;

/// What follows from one line of the network.
#[derive(Drop)]
pub enum LoginStep {
    /// Nothing.
    Nothing,
    /// These lines are to be sent.
    Send(Vec<Line>),
    /// We are not logged in, and won't be.
    Failed,
}

/// A login to an account of a network (IRCv3 sasl 3.1), from the network's acknowledgement of `sasl`
/// to its success or failure.
///
/// ```text
/// <- :s CAP * ACK :multi-prefix sasl
/// -> AUTHENTICATE PLAIN
/// <- AUTHENTICATE +
/// -> AUTHENTICATE AGFubgBzZWNyZXQ=
/// <- :s 903 ann :SASL authentication successful
/// -> CAP END
/// ```
#[derive(Drop)]
pub struct Login {
    // by PLAIN; else by EXTERNAL
    is_plain: bool,
    // in base64
    response: Vec<u8>,
    is_acknowledged: bool,
    was_asked: bool,
    is_logged_in: bool,
}

impl Model for Login {
    ghost use Rattle.std.specs.Prelude.{IsTrue};
    ghost use Rattle.irc_line.specs.Writing.{is_clean};
    ghost use Rattle.sasl.specs.Login.{Progress};

    ghost Value = { Progress };

    ghost view = { λ login. record {
      is_plain = login.is_plain;
      response = login.response.items;
      is_acknowledged = login.is_acknowledged;
      was_asked = login.was_asked;
      is_logged_in = login.is_logged_in;
    } };

    ghost invariant = { λ login. IsTrue (is_clean login.response.items) };
}

impl Login {
    /// A login to an account with its password, by PLAIN (RFC 4616); without one, by EXTERNAL (RFC
    /// 4422, appendix A). Neither text may have a NUL in it.
    pub fn start(alloc: Global, account: Option<(&[u8], &[u8])>) -> Result<Login, OutOfMemory>
        ensures { IfOk result (HasTaken
            (option_map (λ login. (login.0.now, login.1.now)) account.entry) []) }
    {
        let is_plain = account.is_some();
        let response = response_of(alloc, account)?;
        Ok(Login {
            is_plain,
            response,
            is_acknowledged: false,
            was_asked: false,
            is_logged_in: false,
        })
    }

    /// The mechanism: `PLAIN` or `EXTERNAL`.
    pub fn mechanism(&self) -> &'static [u8]
        ensures named { result.now ≡ mechanism_named self.now.is_plain }
        ensures value { (account : Account) (lines : List Parts) → HasTaken account lines self.now →
            result.now ≡ mechanism_of account }
    {
        if self.is_plain { b"PLAIN" } else { b"EXTERNAL" }
    }

    /// Whether a line says that we are not logged in, and won't be.
    pub fn is_failure(line: &Line) -> bool
        ensures { result ≡ is_failure line.now }
    {
        matches!(Said::of(line), Said::Failed)
    }

    /// Whether the network has said that we are logged in.
    pub fn is_logged_in(&self) -> bool
        ensures { (account : Account) (lines : List Parts) → HasTaken account lines self.now →
            result ≡ is_logged_in lines }
    {
        self.is_logged_in
    }

    /// Asks for the mechanism.
    fn ask(&mut self) -> Result<LoginStep, OutOfMemory>
        ensures sent { IfOk result (λ step. answer_of step
            ≡ sends (authenticate (mechanism_named self.old.is_plain) ∷ [])) }
        ensures taken { OnOk result (self.new ≡ record self.old { is_acknowledged = true }) }
        ensures err { OnErr result (self.new ≡ self.old) }
    {
        let alloc = *self.response.allocator();
        let mut lines = Vec::with_capacity(alloc, 1)?;
        lines.push(authenticate(alloc, self.mechanism())?)?;
        self.is_acknowledged = true;
        Ok(LoginStep::Send(lines))
    }

    /// Ends the negotiation, as we are logged in.
    fn end(&mut self) -> Result<LoginStep, OutOfMemory>
        ensures sent { IfOk result (λ step. answer_of step ≡ sends (cap_end ∷ [])) }
        ensures taken { OnOk result (self.new ≡ record self.old { is_logged_in = true }) }
        ensures err { OnErr result (self.new ≡ self.old) }
    {
        let alloc = *self.response.allocator();
        let mut lines = Vec::with_capacity(alloc, 1)?;
        lines.push(Line::from_parts(alloc, None, None, b"CAP", &[b"END"])?)?;
        self.is_logged_in = true;
        Ok(LoginStep::Send(lines))
    }

    /// Sends the response, if the network has acknowledged `sasl` and it was not sent before.
    fn respond(&mut self) -> Result<LoginStep, OutOfMemory>
        ensures sent { IfOk result (λ step. answer_of step
            ≡ (if self.old.is_acknowledged && not self.old.was_asked
            then sends (response_lines self.old.response) else nothing)) }
        ensures taken { OnOk result (self.new ≡ record self.old {
          was_asked = self.old.was_asked || self.old.is_acknowledged;
        }) }
        ensures err { OnErr result (self.new ≡ self.old) }
    {
        let alloc = *self.response.allocator();
        if !self.is_acknowledged || self.was_asked {
            return Ok(LoginStep::Nothing);
        }
        let lines = response_lines(alloc, self.response.as_slice())?;
        self.was_asked = true;
        Ok(LoginStep::Send(lines))
    }

    /// Takes a line of the network, and says what follows from it. The response, which has the
    /// password, is sent once, for the first `AUTHENTICATE +` after the network has acknowledged
    /// `sasl`. After a refused allocation the login is as it was.
    pub fn line(&mut self, line: &Line) -> Result<LoginStep, OutOfMemory>
        ensures answer { (account : Account) (before : List Parts) →
            HasTaken account before self.old →
            IfOk result (λ step. answer_of step ≡ answer_to account before line.now) }
        ensures taken { (account : Account) (before : List Parts) →
            HasTaken account before self.old →
            OnOk result (HasTaken account (before ++ line.now ∷ []) self.new) }
        ensures err { OnErr result (self.new ≡ self.old) }
    {
        match Said::of(line) {
            Said::Acknowledged => self.ask(),
            Said::Go => self.respond(),
            Said::LoggedIn => self.end(),
            Said::Failed => Ok(LoginStep::Failed),
            Said::Other => Ok(LoginStep::Nothing),
        }
    }
}
