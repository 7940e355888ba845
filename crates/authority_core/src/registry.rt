// A node as an authority.

ghost use Rattle.std.specs.Prelude.{◌≡◌, ◌≤◌, ◌<◌, IfOk, IfSome, IsSome, MatchResult, Some, find, length, map, option_map};
ghost use Rattle.std.specs.List.{AllByRecursion};
ghost use Rattle.std.specs.Option.{option_copied};
ghost use Rattle.std.specs.Str.{IsUtf8};
ghost use Rattle.fed_base.specs.Moments.{moment_limit};
ghost use Rattle.fed_base.specs.Counts.{CountsAtMost, counted};
ghost use Rattle.fed_json.specs.Forms.{IsWellFormed, IsWhole, nesting};
ghost use Rattle.fed_json.specs.declared.tree.Json.{List as ListTree, Text as TextTree};
ghost use Rattle.jws_form.specs.Compact.{max_bytes};
ghost use Rattle.key_ring.specs.Sets.{live_set, signer_keys};
ghost use Rattle.node_config.specs.Answers.{Gives};
ghost use Rattle.node_config.specs.Nodes.{Subordinate};
ghost use Rattle.node_config.specs.Stated.{IsSubordinate};
ghost use Rattle.node_config.specs.Told.{told_resolver, told_subordinate};
ghost use Rattle.sealed.specs.Seals.{IsSealedBy};
ghost use Rattle.authority_core.specs.Answers.{configuration_response, fetch_response, historical_response, list_response, status_response};
ghost use Rattle.authority_core.specs.Configurations.{node_in};
ghost use Rattle.authority_core.specs.Issued.{configuration_claims, ids_of, statement_claims};
ghost use Rattle.authority_core.specs.Issues.{IsIssue, issue_by};
ghost use Rattle.authority_core.specs.Nestings.{IsShallow, StatesShallowly};
ghost use Rattle.authority_core.specs.Nodes.{is_for, registered};
ghost use Rattle.authority_core.specs.ReadBack.{ReadsAs, claims_about, own_claims};
ghost use Rattle.authority_core.specs.Statuses.{status_tests};

use crate::answers::{json, not_found, signed};
use crate::claims::{configuration_claims, historical_claims, statement_claims, status_claims};
use crate::query::{ListQuery, passes};
use crate::sizes::check_sizes;
use crate::status::status_of;
use entity_id::EntityId;
use entity_statement::STATEMENT_TYPE;
use fed_base::{Ledger, Memory, Seq, Steps, Text};
use fed_json::Json;
use http_plain::{Media, Response};
use key_ring::KeyRing;
use node_config::{ConfigFault, NodeConfig, ResolverConfig, SubordinateConfig};
use slh_dsa::KeyPair;
use std::alloc::Global;
use std::marker::Model;
use trust_mark::STATUS_TYPE;

// The `typ` of a set of historical keys (OpenID Federation 1.0 section 8.7.2).
const HISTORICAL_TYPE: &[u8] = b"jwk-set+jwt";

/// A node's configuration and its key ring.
#[derive(Drop)]
pub struct Registry {
    pub(crate) config: NodeConfig,
    pub(crate) ring: KeyRing,
}

impl Model for Registry {
    ghost use Rattle.key_ring.specs.Sets.{IsNamedIn, live_set, signer_keys};
    ghost use Rattle.authority_core.specs.Configurations.{IsAbove, StatesShortly};
    ghost use Rattle.authority_core.specs.Nodes.{IsStatable, Node, node_of};
    ghost use Rattle.fed_json.specs.contracts.tree.Json as json;
    ghost use Rattle.std.specs.Coded.{codes};

    ghost Value = { Node };

    ghost coded = { Prim.hlevel (codes, json.the_row.coded) };

    ghost view = { λ registry. node_of registry.config registry.ring };

    ghost invariant = { λ registry. IsStatable registry.config × IsNamedIn (signer_keys registry.ring) (live_set registry.ring)
        × IsAbove registry.config × StatesShortly (node_of registry.config registry.ring) };
}

impl Registry {
    /// The node of a configuration and its ring, or the first member that isn't of its form, in the order of [`NodeConfig::read`]. Then
    /// `metadata` where the claims of its own configuration pass 179,000 bytes, and `subordinates` where those of a statement about a
    /// subordinate do.
    #[tactic(auto, unfolding(crate::specs::Configurations::node_in))]
    pub fn read(alloc: Global, config: &Json, ring: KeyRing) -> Result<Registry, ConfigFault>
        requires { IsWellFormed config.now }
        ensures node { Gives result (node_in config.now ring) }
        // Where the configuration is nested no deeper than a text may be that is read, so is what the node states.
        ensures shallow { IfOk result (λ node. IsShallow config.now → StatesShallowly node) }
    {
        let config = match NodeConfig::read(alloc, config) {
            Ok(config) => config,
            Err(fault) => {
                drop(ring);
                return Err(fault);
            }
        };
        match check_sizes(alloc, &config, &ring) {
            Ok(()) => Ok(Registry { config, ring }),
            Err(fault) => {
                drop(config);
                drop(ring);
                Err(fault)
            }
        }
    }

    /// What the node is called.
    pub fn id(&self) -> &EntityId
        ensures { result.now ≡ self.now.settings.id }
    {
        &self.config.id
    }

    /// For how many seconds what it issues holds.
    pub fn lifetime(&self) -> u64
        ensures { result ≡ self.now.settings.lifetime }
    {
        self.config.lifetime
    }

    /// The key that signs.
    pub fn signer(&self) -> &KeyPair
        ensures { signer_keys self.now.ring ≡ Some result.now }
    {
        self.ring.signer()
    }

    /// What it needs to resolve, where it is configured.
    pub fn resolver_config(&self) -> Option<&ResolverConfig>
        ensures { option_map told_resolver (option_copied result) ≡ self.now.settings.resolver }
    {
        self.config.resolver.as_ref()
    }

    /// The node's entity configuration at a moment, in seconds since 1970.
    pub fn configuration(&self, alloc: Global, t: u64) -> Result<Response, Memory>
        ensures response { IfOk result (λ response. response ≡ configuration_response self.now t) }
        ensures short { IfOk result (λ response. length response.body ≤ max_bytes) }
        ensures sealed { IfOk result (λ response. IsSealedBy response.body (live_set self.now.ring)) }
        // A text of the type of statements with this payload reads as what is configured.
        ensures reads_back { IfOk result (λ _. t < moment_limit
            → ReadsAs (configuration_claims self.now t) (own_claims self.now.settings (live_set self.now.ring) t)) }
        // The body is a statement that reads so, where what is stated isn't nested too deep for that.
        ensures issued { IfOk result (λ response. t < moment_limit → nesting (configuration_claims self.now t) ≤ 127
            → IsIssue (issue_by self.now response.body (own_claims self.now.settings (live_set self.now.ring) t))) }
    {
        let claims = configuration_claims(alloc, &self.config, &self.ring, t)?;
        signed(
            alloc,
            self.ring.signer(),
            Media::Statement,
            STATEMENT_TYPE,
            &claims,
        )
    }

    /// The statement about a subordinate at a moment, in seconds since 1970, or 404 `not_found` where no subordinate has that identifier.
    pub fn fetch(&self, alloc: Global, t: u64, sub: &Text) -> Result<Response, Memory>
        ensures response { IfOk result (λ response. response ≡ fetch_response self.now t sub.now) }
        ensures short { IfOk result (λ response. IsSome (registered sub.now self.now.settings) → length response.body ≤ max_bytes) }
        ensures sealed { IfOk result (λ response. IsSome (registered sub.now self.now.settings)
            → IsSealedBy response.body (live_set self.now.ring)) }
        // A text of the type of statements with this payload reads as what is configured of the subordinate.
        ensures reads_back { IfOk result (λ _. (s : Subordinate) → registered sub.now self.now.settings ≡ Some s → t < moment_limit
            → ReadsAs (statement_claims self.now.settings s t) (claims_about self.now.settings s t)) }
        // The body is a statement that reads so, where what is stated isn't nested too deep for that.
        ensures issued { IfOk result (λ response. (s : Subordinate) → registered sub.now self.now.settings ≡ Some s → t < moment_limit
            → nesting (statement_claims self.now.settings s t) ≤ 127
            → IsIssue (issue_by self.now response.body (claims_about self.now.settings s t))) }
    {
        let Some(s) = registered(self.config.subordinates.as_slice(), sub) else {
            return not_found(alloc);
        };
        let claims = statement_claims(alloc, &self.config, s, t)?;
        signed(
            alloc,
            self.ring.signer(),
            Media::Statement,
            STATEMENT_TYPE,
            &claims,
        )
    }

    /// The identifiers of the subordinates that pass every filter, in the order of the configuration.
    pub fn list(&self, alloc: Global, query: &ListQuery) -> Result<Response, Memory>
        ensures { IfOk result (λ response. response ≡ list_response self.now query.now) }
    {
        let ids = ids_that_pass(alloc, self.config.subordinates.as_slice(), query)?;
        json(alloc, &ids)
    }

    /// The retired and the revoked keys, signed.
    pub fn historical_keys(&self, alloc: Global, t: u64) -> Result<Response, Memory>
        ensures response { IfOk result (λ response. response ≡ historical_response self.now t) }
        ensures sealed { IfOk result (λ response. length response.body ≤ max_bytes → IsSealedBy response.body (live_set self.now.ring)) }
    {
        let keys = self.ring.historical(alloc)?;
        let claims = historical_claims(alloc, &self.config, keys, t)?;
        signed(
            alloc,
            self.ring.signer(),
            Media::JwkSet,
            HISTORICAL_TYPE,
            &claims,
        )
    }

    /// What has become of a trust mark at a moment, in seconds since 1970, signed. A text that is no mark of the node, sealed by one of its
    /// live or retired keys, is `invalid`. The text is UTF-8, as the values of forms are.
    pub fn status<L: Ledger>(
        &self,
        alloc: Global,
        t: u64,
        mark: &Text,
        steps: &mut Steps<L>,
    ) -> Result<Response, Memory>
        requires { IsUtf8 mark.now }
        ensures response { IfOk result (λ response. response ≡ status_response self.now t mark.now) }
        ensures sealed { IfOk result (λ response. length response.body ≤ max_bytes → IsSealedBy response.body (live_set self.now.ring)) }
        ensures counted { MatchResult result
            (λ _. L.count steps.new.ledger ≡ counted (status_tests self.now mark.now) (L.count steps.old.ledger))
            (λ _. CountsAtMost (status_tests self.now mark.now) (L.count steps.old.ledger) (L.count steps.new.ledger)) }
    {
        let status = status_of(alloc, &self.config, &self.ring, t, mark, steps)?;
        let claims = status_claims(alloc, &self.config, t, mark, status)?;
        signed(
            alloc,
            self.ring.signer(),
            Media::Status,
            STATUS_TYPE,
            &claims,
        )
    }
}

// The subordinate of that identifier.
fn registered<'a>(
    subordinates: &'a [SubordinateConfig],
    sub: &Text,
) -> Option<&'a SubordinateConfig>
    ensures found { option_map told_subordinate (option_copied result) ≡ find (is_for sub.now) (map told_subordinate subordinates.now) }
    ensures stated { AllByRecursion IsSubordinate subordinates.now → IfSome result (λ s. IsSubordinate s.now) }
{
    for s in subordinates {
        if s.id.text() == sub.as_slice() {
            return Some(s);
        }
    }
    None
}

// The identifiers of the subordinates that pass every filter.
fn ids_that_pass(
    alloc: Global,
    subordinates: &[SubordinateConfig],
    query: &ListQuery,
) -> Result<Json, Memory>
    ensures tree { IfOk result (λ tree. tree ≡ ListTree (ids_of query.now (map told_subordinate subordinates.now))) }
    ensures whole { IfOk result IsWhole }
{
    let mut ids = Seq::new(alloc);
    for s in subordinates {
        if passes(query, s) {
            ids.push(text(alloc, s)?)?;
        }
    }
    Ok(Json::List(ids))
}

// A subordinate's identifier.
fn text(alloc: Global, s: &SubordinateConfig) -> Result<Json, Memory>
    ensures tree { IfOk result (λ tree. tree ≡ TextTree s.now.id) }
    ensures whole { IfOk result IsWhole }
{
    let id = Text::of(alloc, s.id.text())?;
    Ok(Json::Text(id))
}
