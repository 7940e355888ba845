// Where forms are posted.

ghost use Rattle.std.specs.Prelude.{List, ℕ, Result as AnyResult};
ghost use Rattle.fed_ports.specs.declared.link.LinkFault.{LinkFault as AnyFault};
ghost use Rattle.fed_ports.specs.declared.page.Page.{Page as AnyPage};
ghost use Rattle.mark_status.specs.Posts.{Asked, Asks};

use fed_base::Text;
use fed_ports::{LinkFault, Page};
use std::alloc::Global;

/// What posts forms to URLs. It counts its calls and its failures, and may tell the posts that were made.
pub trait Asker {
    /// How it stands.
    ghost asked: { Self → Asked };

    /// What the asker says of one call: how it stood before and after it, the URL, the body, and the answer.
    ghost gave: { Self → Self → List ℕ → List ℕ → AnyResult AnyPage AnyFault → Type 0 };

    /// The page with which a POST of this form is answered at the URL, `NoRoute` where there is no route to it. `Failed` comes only
    /// where the count of faults rose.
    fn post(&mut self, alloc: Global, url: &Text, body: &Text) -> Result<Page, LinkFault>
        ensures asks { Asks (asked self.old) url.now body.now result (asked self.new) }
        ensures gave { gave self.old self.new url.now body.now result };
}
