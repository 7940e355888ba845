//! What follows from what is told of a call.

ghost use Rattle.fed_ports.specs.Webs.{Web};
ghost use Rattle.chain_climb.specs.Elements.{Among};
ghost use Rattle.authority_core.specs.Nodes.{Node};
ghost use Rattle.node_config.specs.Nodes.{Resolver};
ghost use Rattle.node_files.specs.ResolvingParts.{signer_of};
ghost use Rattle.resolve_round.specs.declared.request.ResolveRequest.{ResolveRequest as AnyRequest};
ghost use Rattle.resolve_round.specs.declared.trace.Search.{Search as AnySearch};
ghost use Rattle.fed_resolver.specs.Completeness.{HitsAgree};
ghost use Rattle.fed_resolver.specs.Outcomes.{IsAnswered, IsWhole};
ghost use Rattle.fed_resolver.specs.Told.{situation_of};
ghost use Rattle.fed_resolver.specs.Uses.{SpeaksFor};
ghost use Rattle.fed_resolver.specs.declared.outcome.Outcome.{Outcome as AnyOutcome};
ghost use Rattle.resolve_call.specs.Alone.{HasOneRound, HitsAreFetched};
ghost use Rattle.resolve_call.specs.Ports.{Around};
ghost use Rattle.resolve_call.specs.Calls.{Follows, IsCallBy};
ghost use Rattle.resolve_call.specs.Webs.{ShowsWeb};

use fed_resolver::laws::{completeness, traces};

/// Each text that the cache gave was fetched by the same call, at the same URL. It does nothing.
pub fn hits()
    ensures { (node : Node) (resolver : Resolver) (request : AnyRequest) (before now : Around) (outcome : AnyOutcome)
        → IsCallBy node resolver request before now outcome → HitsAreFetched outcome.trace.searches }
{
    traces();
}

/// The entity that was asked for has one round at most, and the cache gives nothing to it, since it is empty when that begins. So what the
/// last of its rounds says is what this one says. It does nothing.
pub fn one_round()
    ensures { (node : Node) (resolver : Resolver) (request : AnyRequest) (before now : Around) (outcome : AnyOutcome)
        → (call : IsCallBy node resolver request before now outcome)
        → (whole : IsWhole (situation_of request (signer_of node resolver call.pair) now.clock.last) (signer_of node resolver call.pair) outcome)
        → HasOneRound whole.told.base.leaf }
{}

/// Where the network tells its exchanges and doesn't fail, what a call answers speaks of each web that these show, as it would over a link
/// that tells this web. It does nothing.
pub fn webs()
    ensures speaks { (node : Node) (resolver : Resolver) (request : AnyRequest) (before now : Around) (outcome : AnyOutcome)
        → (call : IsCallBy node resolver request before now outcome) → (web : Web) → ShowsWeb resolver.routes before now web → IsAnswered outcome.result
        → SpeaksFor (situation_of request (signer_of node resolver call.pair) now.clock.last) (signer_of node resolver call.pair) web outcome }
    // What the cache gave is the web's too.
    ensures agrees { (node : Node) (resolver : Resolver) (request : AnyRequest) (before now : Around) (outcome : AnyOutcome)
        → IsCallBy node resolver request before now outcome → (web : Web) → ShowsWeb resolver.routes before now web → IsAnswered outcome.result
        → (search : AnySearch) → Among search outcome.trace.searches → HitsAgree web search }
{
    traces();
    completeness();
}

/// All of these in one record, for whoever makes such a call. It does nothing.
pub fn follows()
    ensures { (node : Node) (resolver : Resolver) (request : AnyRequest) (before now : Around) (outcome : AnyOutcome)
        → (call : IsCallBy node resolver request before now outcome) → Follows node resolver request before now outcome call }
{
    hits();
    one_round();
    webs();
}
