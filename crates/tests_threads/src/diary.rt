//! `Diary`: a watcher that notes each step of a session.

ghost use Rattle.std.specs.Prelude.{◌≡◌};

use client_caps::Caps;
use hub_core::{AttachError, Seen};
use hub_ends::SessionId;
use hub_threads::Network;
use net_view::NetworkView;
use sessions::{Claim, Leave, Refusal, Watcher};
use std::alloc::{AllocError, Global};
use std::io::{Read, Write};
use std::sync::Arc;
use test_stage::claims::{push_caps, push_claim};

/// What a watcher answers.
#[derive(Clone, Copy, PartialEq, Eq)]
pub(crate) enum Answers {
    Serve,
    TurnAway,
    NotLent(AttachError),
}

/// A watcher that notes a line for each of its calls.
#[derive(Drop)]
pub(crate) struct Diary {
    answers: Answers,
    pub(crate) text: Vec<u8>,
    // whether there was memory for each note
    pub(crate) is_whole: bool,
    session: Option<SessionId>,
}

/// A word, and what is claimed.
fn push_claimed(text: &mut Vec<u8>, word: &[u8], claim: &Claim) -> Result<(), AllocError> {
    text.extend_from_slice(word)?;
    push_claim(text, claim)?;
    text.push(b'\n')?;
    Ok(())
}

/// What a client holds now.
fn push_held(text: &mut Vec<u8>, caps: Caps) -> Result<(), AllocError> {
    text.extend_from_slice(b"holds")?;
    push_caps(text, caps)?;
    text.push(b'\n')?;
    Ok(())
}

impl Diary {
    /// One in which nothing is noted.
    pub(crate) fn new(alloc: Global, answers: Answers) -> Diary {
        Diary {
            answers,
            text: Vec::new(alloc),
            is_whole: true,
            session: None,
        }
    }

    /// Remembers whether there was memory for a note.
    fn note(&mut self, is_noted: bool)
        ensures { self.new.session ≡ self.old.session }
    {
        self.is_whole = self.is_whole && is_noted;
    }
}

impl<V: NetworkView + Drop, I: Read> Watcher<V, Arc<Network<V>>, I> for Diary {
    ghost turns_away = { λ _ _. Unit {0} };

    ghost session = { λ w. w.session };

    fn logged_in(&mut self, claim: &Claim) -> bool {
        let noted = push_claimed(&mut self.text, b"logged in ", claim);
        self.note(noted.is_ok());
        self.answers != Answers::TurnAway
    }

    fn let_in(
        &mut self,
        _reader: &mut I,
        claim: &Claim,
        network: &Arc<Network<V>>,
    ) -> Result<Arc<Network<V>>, AttachError> {
        let noted = push_claimed(&mut self.text, b"let in ", claim);
        self.note(noted.is_ok());
        if let Answers::NotLent(error) = self.answers {
            return Err(error);
        }
        match Arc::try_clone(network) {
            Ok(network) => Ok(network),
            Err(_) => Err(AttachError::OutOfMemory),
        }
    }

    fn refused(&mut self, refusal: Refusal) {
        let noted = writeln!(self.text, "refused: {refusal:?}");
        self.note(noted.is_ok());
    }

    fn attached(&mut self, id: SessionId) {
        self.session = Some(id);
        let noted = writeln!(self.text, "attached: {id}");
        self.note(noted.is_ok());
    }

    fn caps_changed(&mut self, caps: Caps) {
        let noted = push_held(&mut self.text, caps);
        self.note(noted.is_ok());
    }

    fn ended(&mut self, why: Leave) -> Seen {
        let noted = writeln!(self.text, "ended: {why:?}");
        self.note(noted.is_ok());
        Seen::All
    }
}
