//! A reason that repeats, which is reported once.

ghost use Rattle.std.specs.Prelude.{◌≡◌, ◌+◌, ◌-◌, ◌^◌, None, Some, false, min, true};
ghost use Rattle.shell.specs.Repeats.{last_reason, repeats};
ghost use Rattle.shell.specs.declared.repeats.Noted.TheVariants as Noted;

/// What is to be reported of a reason.
#[derive(Clone, Copy, Debug, PartialEq, Eq)]
pub enum Noted {
    /// Nothing: it is that of the last time.
    Again,
    /// Itself; the one before it came this often after it was reported.
    New(u64),
}

/// The last reason, and how often it came again.
#[derive(Drop)]
pub struct Repeats {
    last: Option<Vec<u8>>,
    count: u64,
}

impl Repeats {
    /// No reason yet.
    pub fn new() -> Repeats
        ensures { (last_reason result ≡ None) × (repeats result ≡ 0) }
    {
        Repeats {
            last: None,
            count: 0,
        }
    }

    /// Whether a reason is the last one.
    fn is_last(&self, reason: &[u8]) -> bool
        ensures yes { result ≡ true → last_reason self.now ≡ Some reason.now }
        ensures no { result ≡ false → last_reason self.now ≡ Some reason.now → ⊥ }
    {
        match &self.last {
            Some(last) => last.as_slice() == reason,
            None => false,
        }
    }

    /// Takes a reason, and answers what is to be reported.
    pub fn note(&mut self, reason: Vec<u8>) -> Noted
        ensures same { last_reason self.old ≡ Some reason.items → (result ≡ Noted.Again)
            × (last_reason self.new ≡ last_reason self.old)
            × (repeats self.new ≡ min (repeats self.old + 1) (2 ^ 64 - 1)) }
        ensures other { (last_reason self.old ≡ Some reason.items → ⊥) →
            (result ≡ Noted.New (repeats self.old))
            × (last_reason self.new ≡ Some reason.items) × (repeats self.new ≡ 0) }
    {
        if self.is_last(&reason) {
            self.count = self.count.saturating_add(1);
            return Noted::Again;
        }
        let count = self.count;
        self.last = Some(reason);
        self.count = 0;
        Noted::New(count)
    }

    /// The reason is gone; how often it came again after it was reported.
    pub fn end(&mut self) -> u64
        ensures { (result ≡ repeats self.old) × (last_reason self.new ≡ None)
            × (repeats self.new ≡ 0) }
    {
        let count = self.count;
        self.last = None;
        self.count = 0;
        count
    }
}
