//! What follows from what is told of batches.

ghost use Rattle.std.specs.Prelude.{List, map};
ghost use Rattle.chain_climb.specs.Elements.{Among, Ordered};
ghost use Rattle.statement_shelf.specs.Passes.{CommonsKnown};
ghost use Rattle.resolver_service.specs.Batches.{AreBatches, Batch, IsBatch, Setup, Standing, known_at};
ghost use Rattle.resolver_service.specs.Precedence.{HasCallsOf, HasOnlyCallsOf, StandsBefore, StandsPast};

/// On each part of the cache, and on the book, the calls of an earlier batch stand before those of a later one. It does nothing.
pub fn batches_in_order<P, N, C>()
    // Those of a batch stand past all that the one pass had seen before it.
    ensures past { (s : Setup P N C) (b : Batch P N C) → IsBatch s b → StandsPast b }
    // Those that were made at its desks are among them.
    ensures desks { (s : Setup P N C) (b : Batch P N C) → (batch : IsBatch s b) → (other : CommonsKnown) → Among other (map known_at batch.serves.served)
        → HasCallsOf b other }
    // No others are but that of the Purge on each part.
    ensures only { (s : Setup P N C) (b : Batch P N C) → (batch : IsBatch s b) → HasOnlyCallsOf b batch.purged (map known_at batch.serves.served) }
    // Of batches one after the other, those of each stand before those of all later ones.
    ensures in_order { (s : Setup P N C) (first : Standing P) (batches : List (Batch P N C)) (last : Standing P) → AreBatches s first batches last
        → Ordered StandsBefore batches }
{}
