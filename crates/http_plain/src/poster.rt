// Where forms are posted.

ghost use Rattle.std.specs.Prelude.{ℕ, List, Result as AnyResult};
ghost use Rattle.fed_ports.specs.declared.link.LinkFault.{LinkFault as AnyFault};
ghost use Rattle.fed_ports.specs.declared.page.Page.{Page as AnyPage};
ghost use Rattle.fed_ports.specs.Webs.{HasLinkCause};

use fed_ports::{LinkFault, Page, Text};
use std::alloc::Global;

/// What posts forms to URLs. It is a trait of its own, which wants no `Send`, so that a method of an `impl` can call it over any network.
pub trait Poster {
    /// How often a call has failed.
    ghost post_faults: { Self → ℕ };

    /// What is said of one post: how it stood before and after it, the URL, the form, and the answer.
    ghost posted: { Self → Self → List ℕ → List ℕ → AnyResult AnyPage AnyFault → Type 0 };

    /// The page with which a POST of this form is answered at this URL, `NoRoute` where there is no route to it.
    fn post(&mut self, alloc: Global, url: &Text, form: &Text) -> Result<Page, LinkFault>
        ensures posted { posted self.old self.new url.now form.now result }
        ensures cause { HasLinkCause (post_faults self.old) (post_faults self.new) result };
}
