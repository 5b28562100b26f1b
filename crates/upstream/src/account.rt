//! The login to an account that a registration is made with.

ghost use Rattle.std.specs.Prelude.{◌≡◌, ◌++◌, ◌∷◌, [], List, IfOk, OnErr, OnOk, option_copied};
ghost use Rattle.irc_line.specs.Line.{Parts};
ghost use Rattle.bnc_config.specs.Settings.{SaslSettings};
ghost use Rattle.sasl.specs.Login.{answer_of, is_logged_in};
ghost use Rattle.upstream.specs.Registration.{account_answer, offers_login};
ghost use Rattle.upstream.specs.Said.{said};
ghost use Rattle.upstream.specs.Taken.{IsLogin, IsLoginAt};

use crate::OutOfMemory;
use crate::said::Said;
use bnc_config::SaslConfig;
use irc_line::Line;
use sasl::{Login, LoginStep, last_param, offers};
use std::alloc::Global;

/// A login to an account of the network.
#[derive(Drop)]
pub(crate) struct AccountLogin {
    login: Login,
    // whether a list of the network offered it
    is_offered: bool,
}

impl AccountLogin {
    /// A login for which no line has come.
    fn start(alloc: Global, settings: &SaslConfig) -> Result<AccountLogin, OutOfMemory>
        ensures { IfOk result (IsLogin settings.now []) }
    {
        Ok(AccountLogin {
            login: Login::start(alloc, settings.account())?,
            is_offered: false,
        })
    }

    /// A login for which no line has come, if one is wanted.
    pub fn if_wanted(
        alloc: Global,
        settings: Option<&SaslConfig>,
    ) -> Result<Option<AccountLogin>, OutOfMemory>
        ensures { IfOk result (IsLoginAt (option_copied settings.entry) []) }
    {
        match settings {
            Some(settings) => Ok(Some(AccountLogin::start(alloc, settings)?)),
            None => Ok(None),
        }
    }

    /// Whether the network has said that we are logged in.
    pub fn is_logged_in(&self) -> bool
        ensures { (account : SaslSettings) (lines : List Parts) → IsLogin account lines self.now →
            result ≡ is_logged_in lines }
    {
        self.login.is_logged_in()
    }

    /// Whether a line, which says this, offers the login.
    fn is_offered_by(&self, says: Said, line: &Line) -> bool
        requires { says ≡ said line.now }
        ensures { (account : SaslSettings) (lines : List Parts) → IsLogin account lines self.now →
            result ≡ offers_login account line.now }
    {
        match says {
            Said::List | Said::LastList => offers(self.login.mechanism(), last_param(line)),
            _ => false,
        }
    }

    /// Takes a line of the network, which says this, and says what the login does for it. After an
    /// allocation that failed it is as it was.
    pub fn line(&mut self, says: Said, line: &Line) -> Result<LoginStep, OutOfMemory>
        requires { says ≡ said line.now }
        ensures answer { (account : SaslSettings) (before : List Parts) →
            IsLogin account before self.old →
            IfOk result (λ step. answer_of step ≡ account_answer account before line.now) }
        ensures taken { (account : SaslSettings) (before : List Parts) →
            IsLogin account before self.old →
            OnOk result (IsLogin account (before ++ line.now ∷ []) self.new) }
        ensures err { OnErr result (self.new ≡ self.old) }
    {
        let is_offered = self.is_offered | self.is_offered_by(says, line);
        let step = self.login.line(line)?;
        self.is_offered = is_offered;
        match says {
            Said::LastList if !is_offered => Ok(LoginStep::Failed),
            _ => Ok(step),
        }
    }
}
