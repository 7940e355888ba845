// What is shown.

use fed_base::Text;

/// What is shown of an input.
#[derive(Drop)]
pub struct View {
    /// Whether a text, or the key set, isn't what it is to be.
    pub refused: bool,
    /// Lines, each with its line end.
    pub text: Text,
}
