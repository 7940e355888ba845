//! Laws over the definitions alone.

ghost use Rattle.std.specs.Prelude.{◌≡◌, ◌≤◌, ◌++◌, [], List, ℕ, Option, Result, true};
ghost use Rattle.fed_ports.specs.Webs.{Web};
ghost use Rattle.entity_statement.specs.Claims.{Identifier};
ghost use Rattle.chain_check.specs.Chains.{Texts};
ghost use Rattle.chain_check.specs.Validity.{IsValid, case_of};
ghost use Rattle.chain_climb.specs.Elements.{Among};
ghost use Rattle.chain_climb.specs.declared.want.Bounds.{Bounds};
ghost use Rattle.jwk_set.specs.declared.set.JwkSet.{JwkSet as KeySet};
ghost use Rattle.resolve_round.specs.declared.request.ResolveRequest.{ResolveRequest as AnyRequest};
ghost use Rattle.statement_shelf.specs.declared.calls.AnchorKeys.{AnchorKeys};
ghost use Rattle.statement_shelf.specs.declared.calls.Proven.{Proven as Shown};
ghost use Rattle.statement_shelf.specs.declared.calls.ShelfCall.TheVariants.{Look};
ghost use Rattle.statement_shelf.specs.declared.calls.ShelfReply.TheVariants.{Hit};
ghost use Rattle.resolve_round.specs.declared.trace.Event.TheVariants as event;
ghost use Rattle.resolve_round.specs.declared.trace.Got.TheVariants as got;
ghost use Rattle.resolve_round.specs.declared.trace.Trace.{Trace as AnyTrace};
ghost use Rattle.resolve_round.specs.Courses.{Course};
ghost use Rattle.resolve_round.specs.Told.{ShowsSeals};
ghost use Rattle.fed_resolver.specs.declared.outcome.Outcome.{Outcome as AnyOutcome};
ghost use Rattle.fed_resolver.specs.declared.outcome.Refusal.{Refusal as AnyRefusal};
ghost use Rattle.resolve_reply.specs.declared.reply.Reply.{Reply as AnyReply};
ghost use Rattle.resolve_reply.specs.declared.signer.Signer.{Signer as AnySigner};
ghost use Rattle.fed_resolver.specs.Uses.{CountsFaults, FetchesFrom, IsComplete};
ghost use Rattle.fed_resolver.specs.Outcomes.{IsResult, IsWhole, SameCause, Tells};
ghost use Rattle.fed_resolver.specs.Samples.{IsSelf, refused_outcome, self_outcome, self_situation, unlisted_outcome};
ghost use Rattle.fed_resolver.specs.Told.{Situation, ToldInPart, ToldWhole};
ghost use Rattle.fed_resolver.specs.Worlds.{Happening, IsToldIn, IsWorld, MayReply, RepliesStand};

/// However any number of sessions interleave on one cache and one book, each reply stands by itself, under the keys of the
/// session's last reading of the book. It does nothing.
pub fn world_replies()
    ensures { (anchors : List AnchorKeys) (happenings : List Happening) → IsWorld anchors happenings → RepliesStand anchors happenings }
{}

/// What a call's trace shows is what its session knows, so that its reply is one that a session may make. It does nothing.
pub fn replies()
    ensures { (before : List Happening) (session : ℕ) (anchor : Identifier) (trace : AnyTrace) → IsToldIn before session anchor trace
        → (moment : ℕ) (chain : Texts) → IsValid (case_of chain anchor trace.keys.keys moment) → ShowsSeals trace chain
        → MayReply before session anchor moment chain }
{}

/// What holds of every trace that is told. It does nothing.
pub fn traces()
    // It calls for a reply or for one refusal, and never for two of these, whichever way it is told.
    ensures one_cause { (here : Situation) (signer : AnySigner) (trace : AnyTrace) (told other : ToldWhole here trace) (result also : Result AnyReply AnyRefusal)
        → IsResult here signer trace told result → IsResult here signer trace other also → SameCause result also }
    // One that is told whole is told in part.
    ensures whole_in_part { (here : Situation) (trace : AnyTrace) → ToldWhole here trace → ToldInPart here trace }
    // What was hit in a first round stands beside a Look that replied so.
    ensures hits_are_looks { (here : Situation) (trace : AnyTrace) (told : ToldWhole here trace) (course : Course)
        → Among course (told.base.leaf ++ told.base.others) → course.looks ≡ true
        → (url : List ℕ) (proven : Shown) → Among (record { url = url; got = got.Hit proven }) course.search.asks
        → Among (event.Shelf (Look url here.moment) (Hit proven)) trace.events }
{}

/// Where the link tells its web and doesn't fail, what a call answers speaks of the web: this follows from what it tells of
/// its trace and of the link. It does nothing.
pub fn completeness()
    ensures { (here : Situation) (signer : AnySigner) (web : Option Web) (before now : ℕ) (outcome : AnyOutcome) → Tells here signer outcome outcome.result
        → FetchesFrom web outcome.trace.searches → CountsFaults outcome.trace.searches before now → IsComplete here signer web before now outcome }
{}

/// Three whole outcomes: what is told of a call can be told of one. It does nothing.
pub fn samples()
    // A leaf that refuses its configuration isn't found.
    ensures refused { (here : Situation) (signer : AnySigner) (epoch : ℕ) (set : KeySet) → 1 ≤ here.bounds.calls
        → IsWhole here signer (refused_outcome here epoch set) }
    // An anchor that isn't listed has no searches.
    ensures unlisted { (here : Situation) (signer : AnySigner) (set : KeySet) → set.keys ≡ [] → IsWhole here signer (unlisted_outcome here set) }
    // An anchor that resolves itself, with one look, one fetch, one put, one test, one proof and the reply.
    ensures itself { (request : AnyRequest) (bounds : Bounds) (age moment : ℕ) (signer : AnySigner) (epoch : ℕ) (set : KeySet) (self : IsSelf (self_situation request bounds age moment) set)
        → 1 ≤ bounds.calls → 1 ≤ bounds.paths → IsWhole (self_situation request bounds age moment) signer (self_outcome (self_situation request bounds age moment) signer epoch set self) }
{}
