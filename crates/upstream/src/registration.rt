//! The registration at a network, line by line.

ghost use Rattle.std.specs.Prelude.{◌≡◌, ◌≢◌, ◌<◌, ◌++◌, ◌∷◌, [], List, IfNone, IfOk, OnErr, OnOk};
ghost use Rattle.std.specs.Prelude.{IfSome, IsTrue, true};
ghost use Rattle.irc_names.specs.Nick.{is_nameable};
ghost use Rattle.irc_line.specs.Line.{Parts};
ghost use Rattle.bnc_config.specs.Settings.{NetworkSettings};
ghost use Rattle.upstream.specs.Said.{said};
ghost use Rattle.sasl.specs.Login as login;
ghost use Rattle.upstream.specs.Registration.{answer_of_login, answer_to, answer_to_welcome, asked_as};
ghost use Rattle.upstream.specs.Registration.{fails, fault_of, first_lines, heard, login_or, offered_by};
ghost use Rattle.upstream.specs.Registration.{reply_to, sends};
ghost use Rattle.upstream.specs.Taken.{HasTaken, IsAt, IsLoginAt, answer_of};

use crate::OutOfMemory;
use crate::account::AccountLogin;
use crate::offers::Offered;
use crate::said::Said;
use crate::sending::{cap_end, first_lines, join_lines, nick_line, pong_line, request_line};
use bnc_config::NetworkConfig;
use irc_line::Line;
use sasl::LoginStep;
use std::alloc::Global;
use std::marker::Model;
use std::mem;
use thiserror::Error;

/// Why a network did not take us in.
#[derive(Clone, Copy, Debug, PartialEq, Eq, Error)]
pub enum RegisterFault {
    /// The nick was another's, and so was it with one, two and three marks (433 ERR_NICKNAMEINUSE; if
    /// the settings have further nicks, also 437 ERR_UNAVAILRESOURCE).
    #[error("nick in use")]
    NickInUse,
    /// The nick is none on this network (432 ERR_ERRONEUSNICKNAME).
    #[error("bad nick")]
    BadNick,
    /// The password is wrong or the network closed the connection (464 ERR_PASSWDMISMATCH, ERROR).
    #[error("refused")]
    Refused,
    /// 10,000 lines came without a welcome.
    #[error("no welcome")]
    NoWelcome,
    /// The settings have an account, and the network did not offer, acknowledge or take the login
    /// (902, 904, 905, 906, 908, `CAP NAK`), or welcomed us without it.
    #[error("SASL failed")]
    SaslFailed,
}

/// What follows from one line of the network.
#[derive(Drop)]
pub enum Step {
    /// These lines are to be sent; the registration goes on.
    Send(Vec<Line>),
    /// We are in, under the nick of the line; these lines are to be sent: a JOIN for each channel,
    /// or nothing if the settings have lines that are to be sent before them.
    Done(Vec<Line>),
    /// It failed.
    Fault(RegisterFault),
}

/// A registration at a network (RFC 2812, section 3.1; IRCv3 capability negotiation), from its
/// first lines to the welcome or a fault.
///
/// ```text
/// -> CAP LS 302
/// -> NICK ann
/// -> USER ann 0 * :Ann A
/// <- :s CAP * LS :account-notify=1 multi-prefix
/// -> CAP REQ :multi-prefix account-notify
/// <- :s CAP * ACK :multi-prefix account-notify
/// -> CAP END
/// <- :s 433 * ann :in use
/// -> NICK ann_
/// <- :s 001 ann_ :hi
/// ```
#[derive(Drop)]
pub struct Register {
    nick: Vec<u8>,
    // what is sent once we are in
    joins: Vec<Line>,
    offered: Offered,
    // how often the nick was another's
    tries: usize,
    // how many lines came
    count: usize,
    login: Option<AccountLogin>,
    // whether the settings have further nicks, or an empty list of them
    has_nicks: bool,
    is_over: bool,
}

impl Model for Register {
    ghost use Rattle.std.specs.Prelude.{◌≤◌, IsTrue};
    ghost use Rattle.irc_names.specs.Nick.{is_nameable};
    ghost use Rattle.upstream.specs.Progress.{Progress};

    ghost Value = { Progress };

    ghost view = { λ register. record {
      nick = register.nick.items;
      joins = register.joins.items;
      offered = register.offered;
      tries = register.tries;
      count = register.count;
      login = register.login;
      has_nicks = register.has_nicks;
      is_over = register.is_over;
    } };

    ghost invariant = { λ register. record {
      nameable : IsTrue (is_nameable register.nick.items);
      few_tries : register.tries ≤ 3;
      few_lines : register.count ≤ 9999;
    } };
}

/// What is sent for a line, by what the login does for it and what is sent if it does nothing;
/// `None` if the login failed.
fn lines_of(step: LoginStep, reply: Vec<Line>) -> Option<Vec<Line>>
    ensures some { IfSome result
        (λ lines. login_or (login.answer_of step) reply.items ≡ sends lines.items) }
    ensures none { IfNone result
        (login_or (login.answer_of step) reply.items ≡ fails RegisterFault.SaslFailed) }
{
    match step {
        LoginStep::Nothing => Some(reply),
        LoginStep::Send(lines) => Some(lines),
        LoginStep::Failed => None,
    }
}

impl Register {
    /// A registration, and the lines that it sends first: `CAP LS 302`, PASS if the settings
    /// have a password, NICK and USER.
    pub fn start(
        alloc: Global,
        network: &NetworkConfig,
    ) -> Result<(Register, Vec<Line>), OutOfMemory>
        ensures taken { IfOk result (λ x. HasTaken network.now [] x.0) }
        ensures sent { IfOk result (λ x. x.1.items ≡ first_lines network.now) }
    {
        Register::start_as(alloc, network, network.nick())
    }

    /// A registration that asks for this nick in place of the settings'.
    pub fn start_as(
        alloc: Global,
        network: &NetworkConfig,
        nick: &[u8],
    ) -> Result<(Register, Vec<Line>), OutOfMemory>
        requires { IsTrue (is_nameable nick.now) }
        ensures taken { IfOk result (λ x. HasTaken (asked_as network.now nick.now) [] x.0) }
        ensures sent { IfOk result (λ x.
            x.1.items ≡ first_lines (asked_as network.now nick.now)) }
    {
        let lines = first_lines(alloc, network, nick)?;
        let register = Register {
            nick: Vec::from_slice(alloc, nick)?,
            joins: join_lines(alloc, network)?,
            offered: Offered::none(),
            tries: 0,
            count: 0,
            login: AccountLogin::if_wanted(alloc, network.sasl())?,
            has_nicks: network.nicks().is_some(),
            is_over: false,
        };
        Ok((register, lines))
    }

    /// What a line, which says this, says to this registration: 437 is taken for 433 if the settings
    /// have further nicks.
    fn heard(&self, says: Said, line: &Line) -> Said
        requires { says ≡ said line.now }
        ensures { (network : NetworkSettings) (before : List Parts) →
            IsAt network before self.now → result ≡ heard network line.now }
    {
        if self.has_nicks && line.is(b"437") {
            Said::NickInUse
        } else {
            says
        }
    }

    /// The fault that a line which says this is.
    fn fault_of(&self, says: Said) -> Option<RegisterFault>
        ensures fault { (network : NetworkSettings) (before : List Parts) →
            IsAt network before self.now → result ≡ fault_of network before says }
        ensures room { IfNone result (says ≢ Said.Welcome → self.now.count < 9999) }
        ensures tries { IfNone result (says ≡ Said.NickInUse → self.now.tries < 3) }
    {
        match says {
            Said::Welcome => None,
            Said::BadNick => Some(RegisterFault::BadNick),
            Said::Refused => Some(RegisterFault::Refused),
            Said::NickInUse if self.tries == 3 => Some(RegisterFault::NickInUse),
            _ if self.count == 9_999 => Some(RegisterFault::NoWelcome),
            _ => None,
        }
    }

    /// What is sent for a line, if it does not end the registration and the login sends nothing
    /// for it; `offered` is with those of the line.
    fn reply_to(&self, says: Said, line: &Line, offered: Offered) -> Result<Vec<Line>, OutOfMemory>
        requires { says ≡ Said.NickInUse → self.now.tries < 3 }
        ensures { (network : NetworkSettings) (before : List Parts) → IsAt network before self.now →
            offered ≡ offered_by (before ++ line.now ∷ []) →
            IfOk result (λ lines. lines.items ≡ reply_to network before line.now says) }
    {
        let alloc = *self.nick.allocator();
        let reply = match says {
            Said::LastList => {
                let names = offered.names(alloc, self.login.is_some())?;
                request_line(alloc, names.as_slice())?
            }
            Said::CapAnswered if self.login.is_none() => cap_end(alloc)?,
            Said::NickInUse => nick_line(alloc, self.nick.as_slice(), self.tries + 1)?,
            Said::Ping => pong_line(alloc, line)?,
            _ => return Ok(Vec::new(alloc)),
        };
        let mut lines = Vec::with_capacity(alloc, 1)?;
        lines.push(reply)?;
        Ok(lines)
    }

    /// What follows from a welcome.
    fn welcomed(&mut self) -> Step
        ensures answer { (network : NetworkSettings) (before : List Parts) →
            IsAt network before self.old → answer_of result ≡ answer_to_welcome network before }
        ensures over { self.new.is_over ≡ true }
    {
        let alloc = *self.nick.allocator();
        self.is_over = true;
        match &self.login {
            Some(login) if !login.is_logged_in() => Step::Fault(RegisterFault::SaslFailed),
            _ => Step::Done(mem::replace(&mut self.joins, Vec::new(alloc))),
        }
    }

    /// What the login does for a line, which says this.
    fn login_step(&mut self, says: Said, line: &Line) -> Result<LoginStep, OutOfMemory>
        requires { says ≡ said line.now }
        ensures answer { (network : NetworkSettings) (before : List Parts) →
            IsAt network before self.old → IfOk result
            (λ step. login.answer_of step ≡ answer_of_login network.sasl before line.now) }
        ensures taken { (network : NetworkSettings) (before : List Parts) →
            IsAt network before self.old → OnOk result
            (IsLoginAt network.sasl (before ++ line.now ∷ []) self.new.login) }
        ensures rest { self.new ≡ record self.old { login = self.new.login } }
        ensures err { OnErr result (self.new ≡ self.old) }
    {
        match &mut self.login {
            Some(login) => login.line(says, line),
            None => Ok(LoginStep::Nothing),
        }
    }

    /// Takes a line of the network, and says what follows from it; once it has ended, that nothing
    /// is to be sent. Of the capabilities that a network offers, `multi-prefix`, `extended-join`,
    /// `account-notify`, `away-notify` and `server-time` are asked for, and `sasl` if the settings
    /// have an account. After a refused allocation the registration is as it was.
    pub fn line(&mut self, line: &Line) -> Result<Step, OutOfMemory>
        ensures answer { (network : NetworkSettings) (before : List Parts) →
            HasTaken network before self.old →
            IfOk result (λ step. answer_of step ≡ answer_to network before line.now) }
        ensures taken { (network : NetworkSettings) (before : List Parts) →
            HasTaken network before self.old →
            OnOk result (HasTaken network (before ++ line.now ∷ []) self.new) }
        ensures err { OnErr result (self.new ≡ self.old) }
    {
        let alloc = *self.nick.allocator();
        if self.is_over {
            return Ok(Step::Send(Vec::new(alloc)));
        }
        let says = Said::of(line);
        let heard = self.heard(says, line);
        if let Said::Welcome = heard {
            return Ok(self.welcomed());
        }
        if let Some(fault) = self.fault_of(heard) {
            self.is_over = true;
            return Ok(Step::Fault(fault));
        }
        let offered = self.offered.with(says, line);
        let reply = self.reply_to(heard, line, offered)?;
        let Some(lines) = lines_of(self.login_step(says, line)?, reply) else {
            self.is_over = true;
            return Ok(Step::Fault(RegisterFault::SaslFailed));
        };
        self.offered = offered;
        self.count += 1;
        if let Said::NickInUse = heard {
            self.tries += 1;
        }
        Ok(Step::Send(lines))
    }
}
