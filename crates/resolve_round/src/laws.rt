//! Laws over the definitions alone.
ghost use Rattle.std.specs.Prelude.{◌≡◌, ◌≢◌, ◌⊎◌, ◌↔◌, [], List, ℕ, Some, map, true, false};
ghost use Rattle.chain_climb.specs.declared.path.Path.{Path as AnyPath};
ghost use Rattle.chain_climb.specs.declared.want.End.{End as AnyEnd};
ghost use Rattle.chain_climb.specs.declared.want.Want.{Want as AnyWant};
ghost use Rattle.chain_climb.specs.Climbs.{Need, climb, configuration_of, needed};
ghost use Rattle.chain_climb.specs.Elements.{Among, NoneTwice};
ghost use Rattle.chain_climb.specs.Sessions.{IsNext, IsPlainEnd, Search as Searched};
ghost use Rattle.entity_statement.specs.Claims.{Claims as AnyClaims, Identifier};
ghost use Rattle.sealed.specs.Deciding.{Splits};
ghost use Rattle.sealed.specs.Seals.{IsSealed, Pair};
ghost use Rattle.statement_shelf.specs.declared.calls.ShelfCall.TheVariants.{Prove};
ghost use Rattle.statement_shelf.specs.declared.calls.ShelfReply.{ShelfReply as AnyReply};
ghost use Rattle.resolve_round.specs.declared.trace.Event.TheVariants as event;
ghost use Rattle.resolve_round.specs.declared.trace.Trace.{Trace as AnyTrace};
ghost use Rattle.resolve_round.specs.Answers.{AnswersTell, IsMadeBy};
ghost use Rattle.resolve_round.specs.Courses.{Course, finished, found, url_of};
ghost use Rattle.resolve_round.specs.Pages.{GoodConfiguration, GoodStatement, HasChain, IsBest, Pages, Query, findings};
ghost use Rattle.resolve_round.specs.Rounds.{EndsAs, FoundPath, Round, WasAsked, good_in, pages_in};
ghost use Rattle.resolve_round.specs.Told.{AreChecks, ProvesAreKnown, ShownByHit};

/// What is good by the tests is good in words. It does nothing.
pub fn good_pages()
    ensures configurations { (pages : Pages) (entity : Identifier) (t : ℕ) (s : AnyClaims) → ((url text : List ℕ) → pages url ≡ Some text → Splits text)
        → (findings pages t (configuration_of entity) ≡ Some s) ↔ GoodConfiguration pages entity t s }
    ensures statements { (pages : Pages) (t : ℕ) (page : Need) (s : AnyClaims) → page.issuer ≢ page.subject
        → (findings pages t page ≡ Some s) ↔ GoodStatement pages page s }
{}

/// What holds of every round. It does nothing.
pub fn rounds()
    // No URL is asked twice.
    ensures asks_once { (query : Query) (course : Course) → Round query course → NoneTwice (map url_of course.search.asks) }
    // A round has `ended` only at a bound.
    ensures ended_at_bound { (query : Query) (course : Course) → Round query course → course.search.ended ≡ true
        → (course.search.calls ≡ query.bounds.calls) ⊎ (course.search.paths ≡ query.bounds.paths) }
    // One that found no path and ended at no bound asked for each page that the search needs.
    ensures asks_all { (query : Query) (course : Course) → Round query course → course.search.ended ≡ false → ¬ FoundPath course
        → (page : Need) → Among page (needed (climb (good_in query course) query.entity query.anchor query.bounds.depth)) → WasAsked course page }
    // What a round asked and got decides why it stopped and which names it asked for.
    ensures one_stop { (query : Query) (course other : Course) → Round query course → Round query other → other.search ≡ course.search
        → (other.stop ≡ course.stop) × (other.needs ≡ course.needs) }
    // The path that a round found is the first valid one of all paths, and a round that finishes without one leaves none.
    ensures best { (query : Query) (course : Course) → Round query course → (path : AnyPath) → course.stop ≡ found path → IsBest query (pages_in course) path }
    ensures none_left { (query : Query) (course : Course) → Round query course → course.stop ≡ finished → ¬ HasChain query (pages_in course) }
{}

/// What follows for a search whose answers are true of what was got. It does nothing.
pub fn searches()
    // It makes a round.
    ensures rounds { (query : Query) (course : Course) (s : Searched) (want : AnyWant) (next : IsNext s want) → AnswersTell query course s
        → IsMadeBy query course next.taken next.left → Round query course }
    // Where it has nothing left to do, the round ended as the search did.
    ensures ends { (query : Query) (course : Course) (s : Searched) (want : AnyWant) (next : IsNext s want) → AnswersTell query course s
        → next.left ≡ [] → s.verdicts ≡ next.verdicts → course.stop ≡ finished → (end : AnyEnd) → IsPlainEnd s end → EndsAs query course end }
{}

/// Where what hits show verifies, no Prove is of a pair that doesn't. It does nothing.
pub fn proves_are_sealed()
    ensures { (trace : AnyTrace) → AreChecks trace → ProvesAreKnown trace → ((pair : Pair) → ShownByHit trace.events pair → IsSealed pair)
        → (url : List ℕ) (seal : Pair) (r : AnyReply) → Among (event.Shelf (Prove url seal) r) trace.events → IsSealed seal }
{}
