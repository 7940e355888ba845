//! Laws over the definitions alone.

ghost use Rattle.std.specs.Prelude.{◌≡◌, ℕ, List, Some};
ghost use Rattle.entity_statement.specs.Claims.{Identifier};
ghost use Rattle.entity_statement.specs.declared.marks.MarkEntry.{MarkEntry as Entry};
ghost use Rattle.resolve_reply.specs.declared.said.Said.{Said as AnySaid};
ghost use Rattle.resolve_reply.specs.Replies.{chain_of, reply_claims, resealed_claims};

/// What the claims of a reply are with another end and other marks, and which chain they carry. It does nothing.
pub fn replies()
    // They are the claims of a reply that says the same but for its end and its marks.
    ensures resealed { (iss : Identifier) (said : AnySaid) (exp : ℕ) (marks : List Entry)
        → resealed_claims (reply_claims iss said) exp marks ≡ reply_claims iss (record said { exp = exp; marks = marks }) }
    // The chain is the one that was said.
    ensures chain { (iss : Identifier) (said : AnySaid) → chain_of (reply_claims iss said) ≡ Some said.chain }
{}
