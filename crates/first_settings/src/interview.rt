//! The questions of `bnc setup`, one after another, with the answers.

ghost use Rattle.std.specs.Prelude.{◌≡◌, IfOk, OnErr, OnOk};
ghost use Rattle.first_settings.specs.Interviews.{IsAnswered, IsPutAgain, at_first, with_answer};
ghost use Rattle.first_settings.specs.Questions.{again, are_channels, is_channel, is_good};

use crate::{Answers, Question};
use bnc_config::{is_address, is_name, is_word};
use irc_names::is_nameable;
use irc_support::next_word;
use std::alloc::{AllocError, Global};
use std::marker::Model;

/// How often a question comes again after a bad answer.
const AGAIN: u8 = 3;

/// How many channels a network's settings take.
const CHANNELS: usize = 64;

/// What comes after an answer.
#[derive(Clone, Copy, Debug, PartialEq, Eq)]
pub enum Step {
    /// The answer was good; this is the next question.
    Ask(Question),
    /// The answer was bad; this is asked again.
    AskAgain(Question),
    /// The answer was bad, and so were the three before it: no more is asked.
    GiveUp,
    /// All questions are answered.
    Complete,
}

/// The state of the questions.
#[derive(Debug, Drop)]
pub struct Interview {
    question: Question,
    refused: u8,
    answers: Answers,
}

impl Model for Interview {
    ghost use Rattle.first_settings.specs.Interviews.{Asked};

    ghost Value = { Asked };

    ghost view = { λ interview. record {
      question = interview.question;
      refused = interview.refused;
      given = interview.answers;
    } };
}

/// Whether this is a channel: a word with a channel's prefix (RFC 2812, section 1.3).
fn is_channel(word: &[u8]) -> bool
    ensures { result ≡ is_channel word.now }
{
    match word {
        [] => false,
        [first, ..] => matches!(*first, b'#' | b'&' | b'+' | b'!') && is_word(word),
    }
}

/// Whether these are channels with spaces between them, 64 at most.
#[tactic(auto, using(crate::proofs::Channels::channel_steps))]
fn are_channels(line: &[u8]) -> bool
    ensures { result ≡ are_channels line.now }
{
    let mut count = 0;
    let mut left = line;
    while let Some((word, rest)) = next_word(left) {
        if count == CHANNELS || !is_channel(word) {
            return false;
        }
        count += 1;
        left = rest;
    }
    true
}

/// Whether this is a good answer to a question.
fn is_good(question: Question, password: &[u8], line: &str) -> bool
    ensures { result ≡ is_good question password.now line.now }
{
    let bytes = line.as_bytes();
    match question {
        Question::Address => is_address(line),
        Question::Nick => is_nameable(bytes) && is_name(bytes),
        Question::Channels => are_channels(bytes),
        Question::Password => is_word(bytes),
        Question::Again => bytes == password,
    }
}

/// What is asked after a bad answer to a question.
fn again(question: Question) -> Question
    ensures { result ≡ again question }
{
    match question {
        Question::Again => Question::Password,
        other => other,
    }
}

impl Interview {
    /// Before the first answer.
    pub fn new(alloc: Global) -> Interview
        ensures { result ≡ at_first }
    {
        Interview {
            question: Question::Address,
            refused: 0,
            answers: Answers::new(alloc),
        }
    }

    /// What is asked now.
    pub fn question(&self) -> Question
        ensures { result ≡ self.now.question }
    {
        self.question
    }

    /// The good answers so far.
    pub fn answers(&self) -> &Answers
        ensures { result.now ≡ self.now.given }
    {
        &self.answers
    }

    /// Keeps a good answer.
    fn keep(&mut self, alloc: Global, line: &[u8]) -> Result<(), AllocError>
        ensures kept { OnOk result (self.new.given ≡ with_answer self.old.question line.now self.old.given) }
        ensures same { (self.new.question ≡ self.old.question) × (self.new.refused ≡ self.old.refused) }
        ensures refused { OnErr result (self.new ≡ self.old) }
    {
        let kept = Vec::from_slice(alloc, line)?;
        match self.question {
            Question::Address => self.answers.address = kept,
            Question::Nick => self.answers.nick = kept,
            Question::Channels => self.answers.channels = kept,
            Question::Password => self.answers.password = kept,
            Question::Again => {}
        }
        Ok(())
    }

    /// Takes the answer to the question that is asked now, a line without its ending. A good one is
    /// kept, and leads to the next question. After a bad one the question comes again, and after the
    /// fourth bad one in succession nothing more is asked. If an allocation fails, nothing changes.
    pub fn answer(&mut self, alloc: Global, line: &str) -> Result<Step, AllocError>
        ensures answered { IfOk result (IsAnswered self.old line.now self.new) }
        ensures refused { OnErr result (self.new ≡ self.old) }
    {
        if !is_good(self.question, self.answers.password(), line) {
            return Ok(self.refuse());
        }
        self.keep(alloc, line.as_bytes())?;
        self.refused = 0;
        match self.question.after() {
            Some(next) => {
                self.question = next;
                Ok(Step::Ask(next))
            }
            None => Ok(Step::Complete),
        }
    }

    /// What comes after a bad answer.
    fn refuse(&mut self) -> Step
        ensures { IsPutAgain self.old self.new result }
    {
        self.question = again(self.question);
        if self.refused >= AGAIN {
            return Step::GiveUp;
        }
        self.refused += 1;
        Step::AskAgain(self.question)
    }
}
