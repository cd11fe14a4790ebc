//! A text of bytes.
ghost use Rattle.std.specs.Prelude.{◌≡◌};
ghost use Rattle.std.specs.Char.{is_ascii_graphic};
ghost use Rattle.std.specs.List.{list_all};
ghost use Rattle.config_lists.specs.Text.{is_word};

use std::alloc::AllocError;
use std::marker::Model;

/// Bytes of any number and any value. A contract sees them as a list.
#[derive(Drop)]
pub struct Text {
    bytes: Vec<u8>,
}

impl Model for Text {
    ghost use Rattle.std.specs.Prelude.{List, ℕ};

    ghost Value = { List ℕ };

    ghost view = { λ text. text.bytes.items };
}

impl Text {
    pub fn as_bytes(&self) -> &[u8]
        ensures { result.now ≡ self.now }
    {
        &self.bytes
    }

    /// Whether it is 1 byte to as many as `most`, each from 21h to 7Eh.
    pub fn is_word(&self, most: usize) -> bool
        ensures { result ≡ is_word most self.now }
    {
        let bytes = self.as_bytes();
        (1..=most).contains(&bytes.len()) && are_word_bytes(bytes)
    }
}

impl Clone for Text {
    ghost is_clone = { λ text copy. copy ≡ text };

    fn clone(&self) -> Result<Text, AllocError> {
        Ok(Text {
            bytes: self.bytes.clone()?,
        })
    }
}

impl From<Vec<u8>> for Text {
    ghost from_gives = { λ bytes text. text ≡ bytes.items };

    /// Takes no memory.
    fn from(bytes: Vec<u8>) -> Text {
        Text { bytes }
    }
}

fn are_word_bytes(bytes: &[u8]) -> bool
    ensures { result ≡ list_all is_ascii_graphic bytes.now }
{
    bytes.iter().all(|b| b.is_ascii_graphic())
}
