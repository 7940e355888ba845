// Explicit registration of a relying party.

ghost use Rattle.std.specs.Prelude.{◌≡◌, ◌∷◌, drop, IfErr, IfOk, IsTrue};
ghost use Rattle.std.specs.List.{list_all};
ghost use Rattle.std.specs.Str.{is_utf8};
ghost use Rattle.fed_json.specs.Forms.{IsWhole};
ghost use Rattle.chain_check.specs.Counts.{CountsVerdict};
ghost use Rattle.chain_check.specs.Validity.{case_of};
ghost use Rattle.client_register.specs.Answers.{CanBeTold, Counts, Registers};
ghost use Rattle.client_register.specs.Finders.{Asks, HasAnswered};
ghost use Rattle.client_register.specs.Registrations.{Registrar, registrar, request};
ghost use Rattle.client_register.specs.Requests.{IsPosted, posted_in};
ghost use Rattle.client_register.specs.Stages.{Decides, Follows, GivesChain, Takes, verdict_in};
ghost use Rattle.client_register.specs.declared.posted.Posted.TheVariants.{Configuration};

use crate::claims::{PARTY_TYPE, registration_claims};
use crate::fault::RegisterFault;
use crate::finder::Finder;
use crate::found::Found;
use crate::posted::Posted;
use crate::registered::{Registered, seal_registration};
use crate::registration::Registration;
use chain_check::{Resolved, Verdict, check_chain};
use entity_id::EntityId;
use fed_base::{Duplicate, Ledger, Memory, Seq, Steps, Text};
use fed_json::{find, object_members};
use jwk_set::JwkSet;
use slh_dsa::KeyPair;
use std::alloc::Global;

/// Registers the relying party that posted these bytes (OpenID Federation 1.0 section 12.2): its trust chain as a JSON list, or its entity
/// configuration, whose chain the finder is then asked for, once. The chain is checked in either case, up to the trust anchor, under these
/// keys of the anchor, at the moment `t`, in seconds since 1970. The registration is signed by the provider `iss` with its keys, and lasts
/// for `lifetime` seconds, or until the chain ends.
pub fn register<F: Finder, L: Ledger>(
    alloc: Global,
    finder: &mut F,
    iss: &EntityId,
    keys: &KeyPair,
    lifetime: u64,
    anchor: &EntityId,
    anchor_keys: &JwkSet,
    posted: &[u8],
    t: u64,
    steps: &mut Steps<L>,
) -> Result<Registered, RegisterFault>
    ensures registers { Registers
        (request (registrar iss.now keys.now anchor.now anchor_keys.now.keys lifetime t) posted.now (F.seen finder.new).last) result }
    // What was posted is read so, once more in the words of the standard.
    ensures posted { IsPosted posted.now (posted_in posted.now) }
    ensures asks { Asks (λ before after entity answer. HasAnswered (F.seen before) (F.seen after) answer × F.gave before after entity anchor.now answer)
        finder.old finder.new (posted_in posted.now) result }
    // Why a chain isn't valid has a JSON text.
    ensures told { IfErr result CanBeTold }
    ensures counted { Counts
        (request (registrar iss.now keys.now anchor.now anchor_keys.now.keys lifetime t) posted.now (F.seen finder.new).last) result
        (L.count steps.old.ledger) (L.count steps.new.ledger) }
{
    let chain = chain_for(alloc, finder, anchor, posted)?;
    let resolved = resolve(alloc, &chain, anchor, anchor_keys, t, steps)?;
    let registration = registration_of(alloc, chain, resolved, lifetime, t)?;
    let claims = registration_claims(alloc, iss, anchor, registration)?;
    Ok(seal_registration(alloc, keys, claims)?)
}

// The chain that was posted, or the posted configuration and what the finder finds behind the leaf's.
fn chain_for<F: Finder>(
    alloc: Global,
    finder: &mut F,
    anchor: &EntityId,
    posted: &[u8],
) -> Result<Seq<Text>, RegisterFault>
    ensures chain { (here : Registrar) → GivesChain (request here posted.now (F.seen finder.new).last) result }
    ensures asks { Asks (λ before after entity answer. HasAnswered (F.seen before) (F.seen after) answer × F.gave before after entity anchor.now answer)
        finder.old finder.new (posted_in posted.now) result }
{
    match Posted::read(alloc, posted)? {
        Posted::Chain(texts) => Ok(texts),
        Posted::Configuration(entity) => found_chain(alloc, finder, &entity, anchor, posted),
        Posted::Neither => Err(RegisterFault::Form),
    }
}

// The posted configuration and what the finder finds behind the leaf's.
fn found_chain<F: Finder>(
    alloc: Global,
    finder: &mut F,
    entity: &EntityId,
    anchor: &EntityId,
    text: &[u8],
) -> Result<Seq<Text>, RegisterFault>
    ensures follows { Follows text.now (F.seen finder.new).last result }
    ensures asks { Asks (λ before after entity answer. HasAnswered (F.seen before) (F.seen after) answer × F.gave before after entity anchor.now answer)
        finder.old finder.new (Configuration entity.now) result }
{
    match finder.find(alloc, entity, anchor)? {
        Found::Chain(texts) => Ok(led_by(alloc, text, texts)?),
        Found::NoChain => Err(RegisterFault::NoChain),
        Found::Spent => Err(RegisterFault::Spent),
        Found::Fault => Err(RegisterFault::Fault),
    }
}

// The texts with this one in the place of the first.
fn led_by(alloc: Global, text: &[u8], mut texts: Seq<Text>) -> Result<Seq<Text>, Memory>
    ensures { IfOk result (λ led. led ≡ text.now ∷ drop 1 texts) }
{
    let text = Text::of(alloc, text)?;
    if texts.is_empty() {
        texts.push(text)?;
    } else {
        texts.set(0, text);
    }
    Ok(texts)
}

// What the chain resolves to.
fn resolve<L: Ledger>(
    alloc: Global,
    chain: &Seq<Text>,
    anchor: &EntityId,
    keys: &JwkSet,
    t: u64,
    steps: &mut Steps<L>,
) -> Result<Resolved, RegisterFault>
    ensures verdict { Decides (case_of chain.now anchor.now keys.now.keys t) result }
    ensures whole { IfOk result (λ resolved. IsWhole resolved.metadata) }
    ensures utf8 { IfOk result (λ _. IsTrue (list_all is_utf8 chain.now)) }
    ensures told { IfErr result CanBeTold }
    ensures counted { CountsVerdict (case_of chain.now anchor.now keys.now.keys t) (verdict_in result)
        (L.count steps.old.ledger) (L.count steps.new.ledger) }
{
    match check_chain(alloc, chain, anchor, keys, t, steps)? {
        Verdict::Valid(resolved) => Ok(resolved),
        Verdict::Refused { place, reason } => Err(RegisterFault::Chain { place, reason }),
    }
}

// What is registered of the leaf of a chain.
fn registration_of(
    alloc: Global,
    chain: Seq<Text>,
    resolved: Resolved,
    lifetime: u64,
    t: u64,
) -> Result<Registration, RegisterFault>
    ensures takes { Takes chain resolved lifetime t result }
    ensures whole { IsWhole resolved.metadata → IfOk result (λ registration. IsWhole registration.party) }
{
    let Some(party) = find(object_members(&resolved.metadata), PARTY_TYPE) else {
        return Err(RegisterFault::NoType);
    };
    let party = party.copy(alloc)?;
    Ok(Registration {
        sub: resolved.leaf,
        iat: t,
        exp: resolved.exp.min(t.saturating_add(lifetime)),
        party,
        chain,
    })
}
