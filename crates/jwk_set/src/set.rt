// Sets of keys.

ghost use Rattle.std.specs.Prelude.{◌≤◌, length, IsTrue};
ghost use Rattle.std.specs.List.{list_all};
ghost use Rattle.jwk_set.specs.Keys.{is_key};
ghost use Rattle.jwk_set.specs.KeySets.{are_distinct};
ghost use Rattle.jwk_set.specs.Listed.{max_keys};

use crate::fault::SetFault;
use crate::jwk::{Jwk, write_key};
use crate::keys::{listed_in, read_keys};
use fed_base::{Alg, Duplicate, Memory, Seq, Text};
use fed_json::{Json, Member};
use std::alloc::Global;

/// A set of at most 64 public keys (RFC 7517 section 5), of which no two have one `kid`.
#[derive(Drop)]
pub struct JwkSet {
    /// The keys, in their order.
    pub keys: Seq<Jwk>,
    // Each set is one that `read` can give.
    pub ghost few: { length keys ≤ max_keys },
    pub ghost formed: { IsTrue (list_all is_key keys) },
    pub ghost distinct: { IsTrue (are_distinct keys) },
}

impl JwkSet {
    ghost use Rattle.std.specs.Prelude.{◌≡◌, ◌↔◌, ℕ, List, Contains, IfOk, Ok, Some};
    ghost use Rattle.fed_base.specs.declared.algorithm.Alg.{Alg};
    ghost use Rattle.fed_json.specs.declared.tree.Json.{Json};
    ghost use Rattle.fed_json.specs.Forms.{IsWellFormed, IsWhole};
    ghost use Rattle.jwk_set.specs.declared.jwk.Jwk.{Jwk};
    ghost use Rattle.jwk_set.specs.declared.jwk.Jwk.TheVariants.{Own};
    ghost use Rattle.jwk_set.specs.KeySets.{GivesBy, IsKeySet, key_named, key_set_in};
    ghost use Rattle.jwk_set.specs.Trees.{set_tree};

    /// The keys of a set's tree, or its first fault, in the order of [`SetFault`].
    #[tactic(auto, unfolding(crate::specs::KeySets::key_set_in))]
    pub fn read(alloc: Global, tree: &Json) -> Result<JwkSet, SetFault>
        requires { IsWellFormed tree.now }
        ensures exact { GivesBy (λ set. set.keys) result (key_set_in tree.now) }
        ensures found { IfOk result (λ set. IsKeySet tree.now set.keys) }
        ensures only { (keys : List Jwk) → IsKeySet tree.now keys → GivesBy (λ set. set.keys) result (Ok keys) }
    {
        let Some(members) = listed_in(tree) else {
            return Err(SetFault::NotSet);
        };
        let keys = read_keys(alloc, members)?;
        Ok(JwkSet { keys })
    }

    /// The public key of the own key of that `kid` and algorithm. No other key has its `kid`.
    pub fn key_of(&self, kid: &Text, alg: Alg) -> Option<[u8; 32]>
        ensures exact { result ≡ key_named kid.now alg self.now.keys }
        ensures named { (public : List ℕ) → (result ≡ Some public) ↔ Contains self.now.keys (Own kid.now alg public) }
    {
        for key in self.keys.as_slice() {
            match key {
                Jwk::Own {
                    kid: name,
                    alg: own,
                    public,
                } => if name.as_slice() == kid.as_slice() && *own == alg {
                    return Some(*public);
                },
                Jwk::Foreign(_) => {},
            }
        }
        None
    }

    /// The set's tree: own keys with `alg`, `kid`, `kty` and `pub`, foreign keys as they were read. It reads as this
    /// set.
    pub fn write(&self, alloc: Global) -> Result<Json, Memory>
        ensures tree { IfOk result (λ tree. tree ≡ set_tree self.now.keys) }
        ensures whole { IfOk result IsWhole }
        ensures reads_back { IfOk result (λ tree. key_set_in tree ≡ Ok self.now.keys) }
    {
        let mut trees = Seq::new(alloc);
        for key in self.keys.as_slice() {
            trees.push(write_key(alloc, key)?)?;
        }
        let mut members = Seq::new(alloc);
        members.push(Member {
            name: Text::of(alloc, b"keys")?,
            value: Json::List(trees),
        })?;
        Ok(Json::Object(members))
    }
}

impl Duplicate for JwkSet {
    fn copy(&self, alloc: Global) -> Result<Self, Memory> {
        let keys = self.keys.copy(alloc)?;
        Ok(JwkSet { keys })
    }
}
