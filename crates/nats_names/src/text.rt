//! A text that contracts see as its bytes.
ghost use Rattle.std.specs.Prelude.{◌≡◌, [], nat_eq, IfOk, Some};
ghost use Rattle.std.specs.Cmp.{partial_equiv_from_equiv};
ghost use Rattle.std.specs.Cmp.Lexicographic.{pointwise, nat_list_eq_equiv};

use crate::NoMemory;
use std::alloc::Global;
use std::fmt;
use std::marker::Model;
use std::sync::ArcStr;

/// A UTF-8 text. It stands where the Rust has a `String` inside a value that contracts compare. It is small, since
/// values with many texts are kept in long lists: an empty text is no block, and another is in a block that its copies
/// share.
#[derive(Drop)]
pub struct Text {
    text: Option<ArcStr>,
}

impl Model for Text {
    ghost use Rattle.std.specs.Prelude.{List, ℕ, []};
    ghost use Rattle.std.specs.Option.{option_map_or};
    ghost use Rattle.std.specs.Arc.{arc_str_bytes};

    ghost Value = { List ℕ };

    ghost view = { λ t. option_map_or arc_str_bytes t.text [] };
}

impl Text {
    /// The empty text. It takes no memory.
    pub fn new() -> Text
        ensures { result ≡ [] }
    {
        Text { text: None }
    }

    /// A text of its own with the bytes of `s`. Own call of this library.
    pub fn from_text(alloc: Global, s: &str) -> Result<Text, NoMemory>
        ensures { IfOk result (λ t. t ≡ s.now) }
    {
        if s.is_empty() {
            return Ok(Text::new());
        }
        Ok(Text {
            text: Some(ArcStr::from_str(alloc, s)?),
        })
    }

    /// The text.
    pub fn as_str(&self) -> &str
        ensures { result.now ≡ self.now }
    {
        match &self.text {
            Some(text) => text.as_str(),
            None => "",
        }
    }

    /// An equal text, which shares the bytes.
    pub fn copy(&self, _alloc: Global) -> Result<Text, NoMemory>
        ensures { IfOk result (λ t. t ≡ self.now) }
    {
        match &self.text {
            Some(text) => Ok(Text {
                text: Some(text.clone()?),
            }),
            None => Ok(Text::new()),
        }
    }
}

/// Texts are equal where their bytes are.
impl PartialEq for Text {
    ghost eq = { pointwise nat_eq };

    ghost laws = { partial_equiv_from_equiv nat_list_eq_equiv };

    fn eq(&self, other: &Text) -> bool {
        self.as_str() == other.as_str()
    }
}

impl Eq for Text {
    ghost laws = { nat_list_eq_equiv };
}

/// Prints the text.
impl fmt::Display for Text {
    ghost output = { λ t. Some t };

    fn fmt<W: fmt::Write>(&self, f: &mut fmt::Formatter<W>) -> fmt::Result {
        fmt::Display::fmt(self.as_str(), f)
    }
}

/// Prints a struct with the text in quotes.
impl fmt::Debug for Text {
    fn fmt<W: fmt::Write>(&self, f: &mut fmt::Formatter<W>) -> fmt::Result {
        f.debug_struct("Text")
            .field("text", &self.as_str())
            .finish()
    }
}
