// The metadata of the entity types that are wanted.

ghost use Rattle.std.specs.Prelude.{◌≡◌};
ghost use Rattle.std.specs.List.{filter};
ghost use Rattle.fed_json.specs.Forms.{IsWhole};
ghost use Rattle.fed_json.specs.Trees.{object_members};
ghost use Rattle.resolve_reply.specs.Replies.{cut_to, is_wanted};

use fed_base::{Seq, Text};
use fed_json::{Json, Member};
use std::alloc::Global;

/// The metadata of these entity types, and all of it where none is named (OpenID Federation 1.0 section 8.3.1). What has a
/// JSON text still has one. It takes no memory.
pub fn cut_to(alloc: Global, types: &Seq<Text>, metadata: Json) -> Json
    ensures cut { result ≡ cut_to types.now metadata }
    ensures whole { IsWhole metadata → IsWhole result }
{
    if types.is_empty() {
        return metadata;
    }
    let members = members_of(alloc, metadata);
    Json::Object(of_types(types.as_slice(), members))
}

// The members of an object.
pub(crate) fn members_of(alloc: Global, tree: Json) -> Seq<Member>
    ensures { result ≡ object_members tree }
{
    match tree {
        Json::Object(members) => members,
        _ => Seq::new(alloc),
    }
}

// The members of these types.
fn of_types(types: &[Text], members: Seq<Member>) -> Seq<Member>
    ensures { result ≡ filter (is_wanted types.now) members }
{
    let mut members = members.into_vec();
    members.retain(|member| is_wanted(types, member));
    Seq::from_vec(members)
}

fn is_wanted(types: &[Text], member: &Member) -> bool
    ensures { result ≡ is_wanted types.now member.now }
{
    types
        .iter()
        .any(|wanted| member.name.as_slice() == wanted.as_slice())
}
