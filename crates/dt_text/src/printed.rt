ghost use Rattle.std.specs.Prelude.{◌≡◌};

use std::marker::Model;

/// One line of text. A contract sees it as the list of its bytes.
#[derive(Debug, Drop)]
pub struct Printed {
    text: Vec<u8>,
}

impl Model for Printed {
    ghost use Rattle.std.specs.Prelude.{List, ℕ};

    ghost Value = { List ℕ };

    ghost view = { λ printed. printed.text.items };
}

impl Printed {
    pub(crate) fn of(text: Vec<u8>) -> Printed
        ensures { result ≡ text.items }
    {
        Printed { text }
    }

    /// The bytes, all of ASCII, with the line feed at the end.
    pub fn bytes(&self) -> &[u8]
        ensures { result.now ≡ self.now }
    {
        self.text.as_slice()
    }
}
