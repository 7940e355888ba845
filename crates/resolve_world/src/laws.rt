//! Laws over the definitions alone.
ghost use Rattle.std.specs.Prelude.{[], ◌≢◌, AllPairs, List};
ghost use Rattle.turn_log.specs.Groups.{IsHistory};
ghost use Rattle.statement_shelf.specs.declared.calls.AnchorKeys.{AnchorKeys};
ghost use Rattle.statement_shelf.specs.Book.{BookStep, opened_with};
ghost use Rattle.statement_shelf.specs.Passes.{CommonsKnown};
ghost use Rattle.statement_shelf.specs.Shelf.{ShelfStep};
ghost use Rattle.resolve_reply.specs.declared.signer.Signer.{Signer as AnySigner};
ghost use Rattle.fed_resolver.specs.declared.outcome.Outcome.{Outcome as AnyOutcome};
ghost use Rattle.fed_resolver.specs.Calls.{Resolves};
ghost use Rattle.fed_resolver.specs.Told.{Situation};
ghost use Rattle.resolve_world.specs.Sessions.{HasWorld};

/// A call is a session of a world: there is a world in which one session did what the call's trace tells, and replied with the chain that
/// the call's reply carries, and in which the calls of all sessions on each object are those that the call's pass has seen. It does
/// nothing.
pub fn calls_are_sessions()
    ensures { (anchors : List AnchorKeys) → AllPairs (λ (a b : AnchorKeys). a.anchor ≢ b.anchor) anchors
        → (here : Situation) (signer : AnySigner) (old new : CommonsKnown) (outcome : AnyOutcome)
        → IsHistory ShelfStep [] BookStep (opened_with anchors) new → Resolves here signer old new outcome → HasWorld anchors here new outcome }
{}
