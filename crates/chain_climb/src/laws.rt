// Laws over the definitions alone.

ghost use Rattle.std.specs.Prelude.{◌≡◌, ◌↔◌, ℕ};
ghost use Rattle.chain_climb.specs.declared.path.Path.{Path as AnyPath};
ghost use Rattle.entity_statement.specs.Claims.{Identifier};
ghost use Rattle.chain_climb.specs.Climbs.{Findings, Need, climb, judged, last_of, needed};
ghost use Rattle.chain_climb.specs.Elements.{Among, Ordered};
ghost use Rattle.chain_climb.specs.Paths.{HintsDiffer, IsPath, Precedes};

/// What holds of the steps of every search, whatever is found. It does nothing.
pub fn steps_of_a_search()
    // It judges exactly the paths that end at the anchor.
    ensures judges { (found : Findings) (leaf anchor : Identifier) (depth : ℕ) (path : AnyPath)
        → Among path (judged (climb found leaf anchor depth)) ↔ (IsPath found leaf anchor depth path × (last_of path ≡ anchor)) }
    // It judges them in their order, where no entity hints another twice.
    ensures ordered { (found : Findings) (leaf anchor : Identifier) (depth : ℕ) → HintsDiffer found
        → Ordered (Precedes found) (judged (climb found leaf anchor depth)) }
    // It is the same search over whatever says the same of the pages that it needs.
    ensures same { (found other : Findings) (leaf anchor : Identifier) (depth : ℕ)
        → ((page : Need) → Among page (needed (climb found leaf anchor depth)) → found page ≡ other page)
        → climb other leaf anchor depth ≡ climb found leaf anchor depth }
{}
