// One key.

ghost use Rattle.std.specs.Prelude.{◌≡◌, IfOk, IfSome, IsTrue, Some};
ghost use Rattle.std.specs.Option.{option_copied};
ghost use Rattle.std.specs.Str.{IsUtf8};
ghost use Rattle.fed_json.specs.Forms.{IsWellFormed, IsWhole, members_well_formed};
ghost use Rattle.jwk_set.specs.declared.jwk.Jwk.TheVariants.{Own};
ghost use Rattle.jwk_set.specs.Keys.{is_text_at, algorithm_at, is_own, own_key, key_of, key_in, is_key};
ghost use Rattle.jwk_set.specs.Trees.{key_tree, own_tree};

use base64url::{decode_32, encode_32};
use fed_base::{Alg, Duplicate, Memory, Seq, Text};
use fed_json::{Json, Member, find, is_whole, text_at, text_member};
use jws_form::{algorithm_name, algorithm_of};
use std::alloc::Global;

/// The `kty` of this project's keys (RFC 7517 section 4.1).
pub(crate) const KEY_TYPE: &[u8] = b"AKP";

/// A public key (RFC 7517 section 4).
#[derive(Drop)]
pub enum Jwk {
    /// A key of SLH-DSA (FIPS 205) with one of the parameter sets of this project.
    Own {
        /// The key's name, UTF-8. This project's own keys have their thumbprint.
        kid: Text,
        /// What it signs with.
        alg: Alg,
        /// PK.seed and PK.root.
        public: [u8; 32],
    },
    /// A key of another type or algorithm: its object, as it was read.
    Foreign(Json),
}

impl Duplicate for Jwk {
    fn copy(&self, alloc: Global) -> Result<Self, Memory> {
        match self {
            Jwk::Own { kid, alg, public } => Ok(Jwk::Own {
                kid: kid.copy(alloc)?,
                alg: *alg,
                public: *public,
            }),
            Jwk::Foreign(tree) => Ok(Jwk::Foreign(tree.copy(alloc)?)),
        }
    }
}

/// The key that a member of a set is, and `None` where it hasn't the form of one.
#[tactic(auto, unfolding(crate::specs::Keys::key_in, crate::specs::Keys::key_of))]
pub(crate) fn read_key(alloc: Global, tree: &Json) -> Result<Option<Jwk>, Memory>
    requires { IsWellFormed tree.now }
    ensures exact { IfOk result (λ key. key ≡ key_in tree.now) }
    ensures formed { IfOk result (λ key. IfSome key (λ k. IsTrue (is_key k))) }
{
    if !is_whole(tree) {
        return Ok(None);
    }
    let Json::Object(members) = tree else {
        return Ok(None);
    };
    let members = members.as_slice();
    if text_at(members, b"kty").is_none() {
        return Ok(None);
    }
    if is_own(members) {
        read_own(alloc, members)
    } else {
        Ok(Some(Jwk::Foreign(tree.copy(alloc)?)))
    }
}

// The key of such members, which has a name, an algorithm, 32 bytes of public key and no private part.
#[tactic(auto, unfolding(crate::specs::Keys::own_key))]
fn read_own(alloc: Global, members: &[Member]) -> Result<Option<Jwk>, Memory>
    requires { IsTrue (members_well_formed members.now) }
    ensures exact { IfOk result (λ key. key ≡ own_key members.now) }
    ensures formed { IfOk result (λ key. IfSome key (λ k. IsTrue (is_key k))) }
{
    if find(members, b"priv").is_some() {
        return Ok(None);
    }
    let (Some(kid), Some(text)) = (text_at(members, b"kid"), text_at(members, b"pub")) else {
        return Ok(None);
    };
    let Some(alg) = algorithm_at(members) else {
        return Ok(None);
    };
    let Some(public) = decode_32(text.as_slice()) else {
        return Ok(None);
    };
    if kid.is_empty() {
        return Ok(None);
    }
    let kid = kid.copy(alloc)?;
    Ok(Some(Jwk::Own { kid, alg, public }))
}

// Whether the members are of this project's key type and one of its algorithms (RFC 7517 sections 4.1 and 4.4).
#[tactic(auto, unfolding(crate::specs::Keys::is_own))]
fn is_own(members: &[Member]) -> bool
    ensures { result ≡ is_own members.now }
{
    is_text_at(members, b"kty", KEY_TYPE) && algorithm_at(members).is_some()
}

// The algorithm that the members name, where it is one of this project's (RFC 7517 section 4.4).
#[tactic(auto, unfolding(crate::specs::Keys::algorithm_at))]
fn algorithm_at(members: &[Member]) -> Option<Alg>
    ensures { result ≡ algorithm_at members.now }
{
    text_at(members, b"alg").and_then(|name| algorithm_of(name.as_slice()))
}

// Whether the member of that name is that text.
fn is_text_at(members: &[Member], name: &[u8], text: &[u8]) -> bool
    ensures { result ≡ is_text_at name.now text.now members.now }
{
    match text_at(members, name) {
        Some(found) => found.as_slice() == text,
        None => false,
    }
}

/// The tree of a key: an own key with `alg`, `kid`, `kty` and `pub`, a foreign one as it was read.
#[tactic(auto, unfolding(crate::specs::Trees::key_tree))]
pub fn write_key(alloc: Global, key: &Jwk) -> Result<Json, Memory>
    requires { IsTrue (is_key key.now) }
    ensures tree { IfOk result (λ tree. tree ≡ key_tree key.now) }
    ensures whole { IfOk result IsWhole }
    ensures reads_back { IfOk result (λ tree. key_in tree ≡ Some key.now) }
{
    match key {
        Jwk::Own { kid, alg, public } => write_own(alloc, kid, *alg, public),
        Jwk::Foreign(tree) => tree.copy(alloc),
    }
}

// The tree of an own key, with its members in byte order.
fn write_own(alloc: Global, kid: &Text, alg: Alg, public: &[u8; 32]) -> Result<Json, Memory>
    requires { IsTrue (is_key (Own kid.now alg public.now)) }
    ensures tree { IfOk result (λ tree. tree ≡ own_tree kid.now alg public.now) }
    ensures whole { IfOk result IsWhole }
    ensures reads_back { IfOk result (λ tree. key_in tree ≡ Some (Own kid.now alg public.now)) }
{
    let mut members = Seq::new(alloc);
    members.push(text_member(alloc, b"alg", algorithm_name(alg))?)?;
    members.push(text_member(alloc, b"kid", kid.as_slice())?)?;
    members.push(text_member(alloc, b"kty", KEY_TYPE)?)?;
    members.push(text_member(alloc, b"pub", &encode_32(public))?)?;
    Ok(Json::Object(members))
}
