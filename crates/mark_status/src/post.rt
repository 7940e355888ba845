// Posts that were made.

ghost use Rattle.std.specs.Prelude.{◌≡◌};

use fed_base::{Duplicate, Memory, Text};
use fed_ports::Page;
use std::alloc::Global;

/// A POST of a form (OpenID Federation 1.0 section 8.4.1), and what came of it.
#[derive(Drop)]
pub struct Post {
    /// Where it was made.
    pub url: Text,
    /// The form, as text (URL Standard section 5.2).
    pub body: Text,
    /// The page that came, and `None` where the asker failed.
    pub page: Option<Page>,
}

impl Duplicate for Post {
    fn copy(&self, alloc: Global) -> Result<Self, Memory> {
        let url = self.url.copy(alloc)?;
        let body = self.body.copy(alloc)?;
        let page = self.page.copy(alloc)?;
        Ok(Post { url, body, page })
    }
}
