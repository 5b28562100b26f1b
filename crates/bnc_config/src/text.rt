//! A text of the settings.

ghost use Rattle.std.specs.Prelude.{◌≡◌, ◌↔◌, IfOk, IsTrue};

use crate::OutOfMemory;
use std::alloc::Global;
use std::marker::Model;

/// A text of the settings file, which contracts see as its bytes. It is UTF-8, as TOML is.
#[derive(Debug, Drop)]
pub struct Text {
    characters: String,
}

impl Model for Text {
    ghost use Rattle.std.specs.Prelude.{List, ℕ};
    ghost use Rattle.std.specs.String.{string_bytes};

    ghost Value = { List ℕ };

    ghost view = { λ text. string_bytes text.characters };
}

impl Text {
    /// A copy of `characters`.
    pub(crate) fn copy(alloc: Global, characters: &str) -> Result<Text, OutOfMemory>
        ensures { IfOk result (λ text. text ≡ characters.now) }
    {
        Ok(Text {
            characters: String::from_str(alloc, characters)?,
        })
    }

    /// Whether both are the same, byte for byte.
    pub(crate) fn is_same(&self, other: &Text) -> bool
        ensures { IsTrue result ↔ (self.now ≡ other.now) }
    {
        self.as_bytes() == other.as_bytes()
    }

    /// The bytes of the text.
    pub fn as_bytes(&self) -> &[u8]
        ensures { result.now ≡ self.now }
    {
        self.characters.as_bytes()
    }

    /// The text as Rust's.
    pub fn as_str(&self) -> &str
        ensures { result.now ≡ self.now }
    {
        self.characters.as_str()
    }
}

/// Whether both are left out, or are the same.
pub(crate) fn are_same_texts(one: &Option<Text>, other: &Option<Text>) -> bool
    ensures { IsTrue result ↔ (one.now ≡ other.now) }
{
    match (one, other) {
        (Some(one), Some(other)) => one.is_same(other),
        (None, None) => true,
        _ => false,
    }
}
