// The leaf's metadata before policies.

ghost use Rattle.std.specs.Prelude.{◌≡◌, ◌<◌, [], IfOk, IsTrue, length, map};
ghost use Rattle.std.specs.Option.{option_copied, option_map_or};
ghost use Rattle.fed_json.specs.Forms.{rising};
ghost use Rattle.fed_json.specs.Trees.{find as find_in, member_name, object_members as members_of};
ghost use Rattle.fed_json.specs.Metadata.{IsMetadata};
ghost use Rattle.chain_check.specs.Metadata.{allowed_metadata as metadata_allowed, limited_places, own_metadata as metadata_own, parameters_over as over, put_over as put, type_over as type_put};
ghost use Rattle.chain_check.specs.Reading.{claims_in};

use chain_limits::{Place, allowed_types};
use entity_statement::SignedStatement;
use fed_base::{Duplicate, Memory, Seq};
use fed_json::{Json, Member, Sides, object_members};
use std::alloc::Global;

/// The leaf's metadata before policies: with its superior's put over it, and without the types that aren't allowed.
pub(crate) fn allowed_metadata(
    alloc: Global,
    entries: &[SignedStatement],
    places: &Seq<Place>,
) -> Result<Json, Memory>
    requires some { 0 < length entries.now }
    requires places { places.now ≡ limited_places (claims_in entries.now) }
    ensures tree { IfOk result (λ tree. tree ≡ metadata_allowed (claims_in entries.now)) }
    ensures metadata { IfOk result IsMetadata }
{
    let metadata = own_metadata(alloc, entries)?;
    allowed_types(alloc, places, &metadata)
}

fn own_metadata(alloc: Global, entries: &[SignedStatement]) -> Result<Json, Memory>
    requires { 0 < length entries.now }
    ensures tree { IfOk result (λ tree. tree ≡ metadata_own (claims_in entries.now)) }
    ensures metadata { IfOk result IsMetadata }
{
    let metadata = &entries[0].statement.metadata;
    match entries.get(1) {
        Some(about) => put_over(alloc, &about.statement.metadata, metadata),
        None => metadata.copy(alloc),
    }
}

// Metadata with the superior's put over it, for the types that it has.
fn put_over(alloc: Global, upper: &Json, metadata: &Json) -> Result<Json, Memory>
    requires upper { IsMetadata upper.now }
    requires own { IsMetadata metadata.now }
    ensures tree { IfOk result (λ tree. tree ≡ put upper.now metadata.now) }
    ensures metadata { IfOk result IsMetadata }
{
    let upper = object_members(upper);
    let mut types = Seq::new(alloc);
    for entity_type in object_members(metadata) {
        types.push(type_over(alloc, upper, entity_type)?)?;
    }
    Ok(Json::Object(types))
}

// An entity type with what the superior says of it.
fn type_over(alloc: Global, upper: &[Member], own: &Member) -> Result<Member, Memory>
    requires types { IsTrue (rising (map member_name upper.now)) }
    requires upper { IsTrue (rising (map member_name (option_map_or members_of (find_in own.now.name upper.now) []))) }
    requires own { IsTrue (rising (map member_name (members_of own.now.value))) }
    ensures { IfOk result (λ m. m ≡ type_put upper.now own.now) }
{
    let above = match find_in_order(upper, own.name.as_slice()) {
        Some(tree) => object_members(tree),
        None => &[],
    };
    let parameters = parameters_over(alloc, above, object_members(&own.value))?;
    Ok(Member {
        name: own.name.copy(alloc)?,
        value: Json::Object(parameters),
    })
}

// The value of the member of that name. The members stand in rising byte order of their names, so it is searched for by halves.
fn find_in_order<'a>(members: &'a [Member], name: &[u8]) -> Option<&'a Json>
    requires { IsTrue (rising (map member_name members.now)) }
    ensures { option_copied result ≡ find_in name.now members.now }
{
    match members.binary_search_by(|member| member.name.as_slice().cmp(name)) {
        Ok(at) => Some(&members[at].value),
        Err(_) => None,
    }
}

// The parameters of both, in byte order of their names; of two with one name the superior's.
fn parameters_over(alloc: Global, upper: &[Member], own: &[Member]) -> Result<Seq<Member>, Memory>
    requires upper { IsTrue (rising (map member_name upper.now)) }
    requires own { IsTrue (rising (map member_name own.now)) }
    ensures { IfOk result (λ all. all ≡ over upper.now own.now) }
{
    let mut all = Seq::new(alloc);
    let mut sides = Sides { upper, lower: own };
    while let Some(side) = sides.next() {
        if let Some(member) = side.upper.or(side.lower) {
            all.push(member.copy(alloc)?)?;
        }
    }
    Ok(all)
}
