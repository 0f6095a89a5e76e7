//! A text of any length.

ghost use Rattle.std.specs.Prelude.{◌≡◌, IfOk, IsUtf8};

use rail_base::NoMemory;
use std::alloc::Global;
use std::marker::Model;

/// A text of any length. A contract sees the list of its UTF-8 bytes.
#[derive(Drop)]
pub struct Text {
    text: String,
}

impl Model for Text {
    ghost use Rattle.std.specs.Prelude.{List, ℕ, string_bytes};

    ghost Value = { List ℕ };

    ghost view = { λ a. string_bytes a.text };
}

impl Text {
    /// The text of these bytes, which are UTF-8. It takes no memory.
    pub fn of(items: Vec<u8>) -> Text
        requires { IsUtf8 items.items }
        ensures { result ≡ items.items }
    {
        match String::from_utf8(items) {
            Ok(text) => Text { text },
            Err(_) => unreachable!(),
        }
    }

    /// A copy of a text. The error is want of memory.
    pub fn copy(alloc: Global, text: &str) -> Result<Text, NoMemory>
        ensures { IfOk result (λ copy. copy ≡ text.now) }
    {
        let text = String::from_str(alloc, text)?;
        Ok(Text { text })
    }

    /// Its bytes. They take no memory.
    pub fn items(&self) -> &[u8]
        ensures { result.now ≡ self.now }
    {
        self.text.as_bytes()
    }

    /// The text. It takes no memory.
    pub fn as_str(&self) -> &str
        ensures { result.now ≡ self.now }
    {
        self.text.as_str()
    }
}
