// What is published of a ring.

ghost use Rattle.std.specs.Prelude.{◌≡◌, ◌++◌, ◌∷◌, [], IfOk, OnOk};
ghost use Rattle.fed_json.specs.declared.tree.Json.{List as ListOf};
ghost use Rattle.key_ring.specs.Sets.{historical_key, historical_keys, is_historical, is_published, own_key, own_set, plain_members, revoked_members};

use crate::held::HeldKey;
use crate::key::{KeyState, is_live_state, is_revoked_state};
use crate::writing::{add_number, add_text, add_tree, revocation_tree};
use base64url::encode_32;
use fed_base::{Alg, Duplicate, Memory, Seq, Text};
use fed_json::{Json, Member};
use jwk_set::Jwk;
use jws_form::algorithm_name;
use std::alloc::Global;

/// The keys that are published: the live ones, and the retired ones too where that is asked.
#[tactic(auto, unfolding(crate::specs::Sets::own_set))]
pub fn own_keys(alloc: Global, keys: &[HeldKey], retired: bool) -> Result<Seq<Jwk>, Memory>
    ensures { IfOk result (λ own. own ≡ own_set retired keys.now) }
{
    let mut own = Seq::new(alloc);
    for held in keys {
        if is_published(retired, held.key().state) {
            add_own(alloc, &mut own, held)?;
        }
    }
    Ok(own)
}

// Whether a key in this state is published.
fn is_published(retired: bool, state: KeyState) -> bool
    ensures { result ≡ is_published retired state }
{
    !is_revoked_state(state) && (retired || is_live_state(state))
}

// Adds the key as a member of a set.
fn add_own(alloc: Global, own: &mut Seq<Jwk>, held: &HeldKey) -> Result<(), Memory>
    ensures { OnOk result (own.new ≡ own.old ++ own_key held.now ∷ []) }
{
    let kid = held.kid().copy(alloc)?;
    own.push(Jwk::Own {
        kid,
        alg: held.pair().alg(),
        public: held.public(),
    })
}

/// The list of the retired and the revoked keys.
#[tactic(auto, unfolding(crate::specs::Sets::historical_keys))]
pub fn historical_keys(alloc: Global, keys: &[HeldKey]) -> Result<Json, Memory>
    ensures { IfOk result (λ tree. tree ≡ ListOf (historical_keys keys.now)) }
{
    let mut trees = Seq::new(alloc);
    for held in keys {
        if is_historical(held.key().state) {
            trees.push(historical_key(alloc, held)?)?;
        }
    }
    Ok(Json::List(trees))
}

// Whether a key in this state is historical.
fn is_historical(state: KeyState) -> bool
    ensures { result ≡ is_historical state }
{
    !is_live_state(state)
}

// A historical key (OpenID Federation 1.0 section 8.7.2).
fn historical_key(alloc: Global, held: &HeldKey) -> Result<Json, Memory>
    ensures { IfOk result (λ tree. tree ≡ historical_key held.now) }
{
    let (key, alg) = (held.key(), held.pair().alg());
    let mut members = Seq::new(alloc);
    add_plain(
        alloc,
        &mut members,
        alg,
        key.exp,
        held.kid(),
        &held.public(),
    )?;
    add_revocation(alloc, &mut members, key.state)?;
    Ok(Json::Object(members))
}

// Adds the members that each historical key has.
fn add_plain(
    alloc: Global,
    members: &mut Seq<Member>,
    alg: Alg,
    exp: u64,
    kid: &Text,
    public: &[u8; 32],
) -> Result<(), Memory>
    ensures { OnOk result (members.new ≡ members.old ++ plain_members alg exp kid.now public.now) }
{
    add_text(alloc, members, b"alg", algorithm_name(alg))?;
    add_number(alloc, members, b"exp", exp)?;
    add_text(alloc, members, b"kid", kid.as_slice())?;
    add_text(alloc, members, b"kty", b"AKP")?;
    add_text(alloc, members, b"pub", &encode_32(public))
}

// The revocation of a key, where it was revoked.
fn add_revocation(alloc: Global, members: &mut Seq<Member>, state: KeyState) -> Result<(), Memory>
    ensures { OnOk result (members.new ≡ members.old ++ revoked_members state) }
{
    if let KeyState::Revoked { at, reason } = state {
        add_tree(
            alloc,
            members,
            b"revoked",
            revocation_tree(alloc, at, reason)?,
        )?;
    }
    Ok(())
}
