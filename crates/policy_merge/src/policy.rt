// Policies.

ghost use Rattle.std.specs.Prelude.{◌≡◌, [], IfOk, IfErr, IsTrue, None};
ghost use Rattle.fed_json.specs.Forms.{IsWellFormed};
ghost use Rattle.policy_merge.specs.Policies.{types_formed, operators_at};
ghost use Rattle.fed_json.specs.Tables.{Name};
ghost use Rattle.fed_base.specs.Answers.{unless};
ghost use Rattle.policy_merge.specs.Combining.{Gives, conflict_in};
ghost use Rattle.policy_merge.specs.Merging.{merging, merged_operators, IsFirst, clash_in, merge_clash_in, NamesUtf8};
ghost use Rattle.policy_merge.specs.Shapes.{Reads, policy_shape};

use crate::combining::types_combined;
use crate::fault::{PolicyFault, PolicyShape};
use crate::merging::{Parameters, Types, merge_types};
use crate::read::FromTree;
use fed_base::{Duplicate, Memory, Seq};
use fed_json::{Json, Named, is_whole};
use std::alloc::Global;
use std::marker::Model;

/// A metadata policy: entity types with their parameters, in byte order of the types' names
/// (OpenID Federation 1.0 section 6.1).
#[derive(Drop)]
pub struct Policy {
    types: Types,
}

impl Model for Policy {
    ghost use Rattle.std.specs.Prelude.{IsTrue};
    ghost use Rattle.policy_merge.specs.Policies.{Types, types_formed};
    ghost use Rattle.std.specs.Coded.{codes};
    ghost use Rattle.fed_json.specs.contracts.tree.Json as json;

    ghost Value = { Types };

    ghost coded = { Prim.hlevel (codes, json.the_row.coded) };

    ghost view = { λ policy. policy.types };

    ghost invariant = { λ policy. IsTrue (types_formed policy.types) };
}

impl Policy {
    /// The policy that a tree states. `Shape` where a level isn't an object, an operator's value hasn't its shape,
    /// or an `Odd` stands anywhere in the tree; operators of other names are left unread.
    pub fn read(alloc: Global, tree: &Json) -> Result<Policy, PolicyShape>
        requires { IsWellFormed tree.now }
        ensures { Reads result (policy_shape tree.now) }
    {
        if !is_whole(tree) {
            return Err(PolicyShape::Shape);
        }
        let types = Types::from_tree(alloc, tree)?;
        Ok(Policy { types })
    }

    /// The policy that says nothing. It takes no memory.
    pub fn empty(alloc: Global) -> Policy
        ensures { result ≡ [] }
    {
        Policy {
            types: Seq::new(alloc),
        }
    }

    /// The entity types with their parameters, in byte order of the types' names.
    pub fn types(&self) -> &[Named<Parameters>]
        ensures types { result.now ≡ self.now }
        ensures formed { IsTrue (types_formed self.now) }
    {
        self.types.as_slice()
    }

    /// Whether the operators of each parameter stand together (section 6.1.3.1), else the first conflict: by entity
    /// type, then by parameter, in byte order, then in the order of the pairs.
    pub fn combined(&self, alloc: Global) -> Result<(), PolicyFault>
        ensures combined { Gives result (unless (conflict_in self.now) tt) }
        ensures first { IfErr result (IsFirst (clash_in self.now)) }
        ensures utf8 { IfErr result NamesUtf8 }
    {
        types_combined(alloc, self.types.as_slice())
    }

    /// This policy merged with that of the next entity down the chain (section 6.1.4.1), whose operators then stand
    /// together; else the first conflict: by entity type, then by parameter, in byte order, then two values that
    /// differ, two defaults that differ, and the pairs of the merged operators in their order.
    pub fn merge(&self, alloc: Global, lower: &Policy) -> Result<Policy, PolicyFault>
        ensures merged { Gives result (merging self.now lower.now) }
        ensures operators { IfOk result (λ policy. (t p : Name) → operators_at policy t p
            ≡ merged_operators (operators_at self.now t p) (operators_at lower.now t p)) }
        ensures first { IfErr result (IsFirst (merge_clash_in self.now lower.now)) }
        ensures utf8 { IfErr result NamesUtf8 }
        ensures combines { IfOk result (λ policy. conflict_in policy ≡ None) }
        ensures empty_lower { lower.now ≡ [] → Gives result (unless (conflict_in self.now) self.now) }
        ensures empty_upper { self.now ≡ [] → Gives result (unless (conflict_in lower.now) lower.now) }
    {
        let types = merge_types(alloc, self.types.as_slice(), lower.types.as_slice())?;
        Ok(Policy { types })
    }
}

impl Duplicate for Policy {
    fn copy(&self, alloc: Global) -> Result<Self, Memory> {
        let types = self.types.copy(alloc)?;
        Ok(Policy { types })
    }
}
