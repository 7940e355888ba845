// What the texts of a chain are taken from.

use crate::tried::Tried;
use fed_base::Text;

/// What holds a text of a chain.
pub(crate) trait HoldsText {
    ghost use Rattle.std.specs.Prelude.{◌≡◌, ℕ, List};

    /// The text.
    ghost text_of: { Self → List ℕ };

    fn text(&self) -> &Text
        ensures { result.now ≡ text_of self.now };
}

impl HoldsText for Text {
    ghost text_of = { λ text. text };

    fn text(&self) -> &Text {
        self
    }
}

impl HoldsText for Tried {
    ghost text_of = { λ tried. tried.text };

    fn text(&self) -> &Text {
        &self.text
    }
}
