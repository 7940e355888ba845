// Laws over the definitions alone.

ghost use Rattle.std.specs.Prelude.{◌≡◌, Bool, List, ℕ};
ghost use Rattle.fed_ports.specs.declared.page.Page.{Page};
ghost use Rattle.fed_ports.specs.Exchanges.{Exchange};
ghost use Rattle.http_plain.specs.declared.route.Route.{Route};
ghost use Rattle.http_plain.specs.Clients.{ClientPage};
ghost use Rattle.http_plain.specs.Pages.{IsPage};

/// The bytes of an answer show one page.
pub fn one_page()
    ensures { (x : List ℕ) (ended : Bool) (a b : Page) → IsPage x ended a → IsPage x ended b → a ≡ b }
{}

/// For one URL, by one list of routes, one exchange shows one page.
pub fn one_client_page()
    ensures { (text : List ℕ) (routes : List Route) (x : Exchange) (a b : Page)
        → ClientPage text routes x a → ClientPage text routes x b → a ≡ b }
{}
