ghost use Rattle.std.specs.Prelude.{◌≡◌};

use std::marker::Model;

/// A text, as a report. A contract sees it as the list of its bytes.
#[derive(Debug, Drop)]
pub struct Text {
    text: Vec<u8>,
}

impl Model for Text {
    ghost use Rattle.std.specs.Prelude.{List, ℕ};

    ghost Value = { List ℕ };

    ghost view = { λ text. text.text.items };
}

impl Text {
    /// The text with these bytes.
    pub fn of(text: Vec<u8>) -> Text
        ensures { result ≡ text.items }
    {
        Text { text }
    }

    /// Its bytes. Those of a report are all of ASCII, and each line ends with a line feed, the last
    /// one too.
    pub fn bytes(&self) -> &[u8]
        ensures { result.now ≡ self.now }
    {
        self.text.as_slice()
    }

    /// Its bytes alone, behind which more may be put.
    pub fn into_vec(self) -> Vec<u8>
        ensures { result.items ≡ self }
    {
        self.text
    }
}
