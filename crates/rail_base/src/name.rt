//! A name of a table: its text is copied once, and is a name by the rule of the tables.

ghost use Rattle.std.specs.Prelude.{◌≡◌, IsTrue, IfOk, List, ℕ, ◌↔◌};
ghost use Rattle.std.specs.List.{list_all};
ghost use Rattle.rail_base.specs.Names.{is_name, is_name_byte};

use crate::NoMemory;
use crate::limits::MAX_NAME_BYTES;
use std::alloc::Global;
use std::marker::Model;

/// Whether each byte may stand in a name.
fn are_name_bytes(text: &[u8]) -> bool
    ensures { result ≡ list_all is_name_byte text.now }
{
    text.iter().all(|byte| *byte >= 32 && *byte != 127)
}

/// Whether a text is a name: 1 to 64 bytes, no byte below 32, no byte 127, and no space at either end.
#[tactic(auto, unfolding(crate::specs::Names::is_name))]
pub fn is_name(text: &[u8]) -> bool
    ensures { result ≡ is_name text.now }
{
    if text.is_empty() {
        return false;
    }
    if text.len() > MAX_NAME_BYTES {
        return false;
    }
    if !are_name_bytes(text) {
        return false;
    }
    if text[0] == b' ' {
        return false;
    }
    text[text.len() - 1] != b' '
}

/// A name of a station, a unit type, a family or a trip: what `is_name` takes. A contract sees the list of its UTF-8
/// bytes.
#[derive(Debug, Drop)]
pub struct Name {
    text: String,
}

impl Model for Name {
    ghost use Rattle.std.specs.Prelude.{List, ℕ, string_bytes, IsTrue};
    ghost use Rattle.rail_base.specs.Names.{is_name};

    ghost Value = { List ℕ };

    ghost view = { λ a. string_bytes a.text };

    ghost invariant = { λ a. IsTrue (is_name (string_bytes a.text)) };
}

impl Name {
    /// A name with this text, which is a name. The error is want of memory.
    pub fn copy(alloc: Global, text: &str) -> Result<Name, NoMemory>
        requires { IsTrue (is_name text.now) }
        ensures { IfOk result (λ name. name ≡ text.now) }
    {
        Ok(Name {
            text: String::from_str(alloc, text)?,
        })
    }

    /// The text of the name, which is a name.
    pub fn as_str(&self) -> &str
        ensures value { result.now ≡ self.now }
        ensures is_name { IsTrue (is_name self.now) }
    {
        self.text.as_str()
    }

    /// Whether two names are the same text.
    pub fn is(&self, other: &Name) -> bool
        ensures { IsTrue result ↔ (self.now ≡ other.now) }
    {
        self.as_str() == other.as_str()
    }
}
