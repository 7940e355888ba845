// Other keys for a trust anchor, as the body of a request states them.

ghost use Rattle.std.specs.Prelude.{◌≡◌, IfOk, IfSome, IsTrue, MatchOption, option_map};
ghost use Rattle.std.specs.Option.{option_copied};
ghost use Rattle.std.specs.Result.{result_ok};
ghost use Rattle.fed_json.specs.Forms.{IsWellFormed, members_well_formed};
ghost use Rattle.jws_form.specs.Compact.{IsCompact};
ghost use Rattle.jws_form.specs.Splitting.{splitting};
ghost use Rattle.node_requests.specs.Changes.{IsAnchorChange, StatesNone};
ghost use Rattle.node_requests.specs.Steps.{anchor_at, claims_in, claims_of, epoch_at, has_type, keys_at, payload_in, stated_in, told_keys, told_stated};

use entity_id::EntityId;
use entity_statement::identifier;
use fed_base::{Duplicate, Memory, Text};
use fed_json::{Json, Member, TreeFault, count_below, find, read_tree};
use jwk_set::{JwkSet, SetFault};
use jws_form::{Compact, FormFault, split};
use std::alloc::Global;

// The `typ` of the header of a text that states other keys.
const ANCHOR_KEYS_TYPE: &[u8] = b"anchor-keys+jwt";

// What every epoch is below that a request can name: 2^62.
const EPOCH_LIMIT: u64 = 1 << 62;

/// Other keys for a trust anchor. The request is this project's own: its body is a compact text of the type `anchor-keys+jwt`, and its
/// payload is a JSON object with the claims `anchor`, `epoch` and `jwks`.
#[derive(Drop)]
pub struct AnchorChange {
    /// The parts of the body, of which `whole` is the body itself. Nothing is known of its signature.
    pub body: Compact,
    /// The trust anchor.
    pub anchor: EntityId,
    /// The epoch of the book of anchors' keys that the keys are to follow, below 2^62.
    pub epoch: u64,
    /// The keys that the anchor is to have.
    pub keys: JwkSet,
}

impl Duplicate for AnchorChange {
    fn copy(&self, alloc: Global) -> Result<Self, Memory> {
        let body = self.body.copy(alloc)?;
        let anchor = self.anchor.copy(alloc)?;
        let keys = self.keys.copy(alloc)?;
        Ok(AnchorChange {
            body,
            anchor,
            epoch: self.epoch,
            keys,
        })
    }
}

// What the claims of such a text state.
#[derive(Drop)]
struct Stated {
    anchor: EntityId,
    epoch: u64,
    keys: JwkSet,
}

/// The other keys that a body states, and `None` where it isn't of that form.
pub(crate) fn read_change(alloc: Global, text: &[u8]) -> Result<Option<AnchorChange>, Memory>
    ensures { IfOk result (λ change. MatchOption change (StatesNone text.now) (IsAnchorChange text.now)) }
{
    let Some(body) = parts(alloc, text)? else {
        return Ok(None);
    };
    match stated_in(alloc, &body)? {
        Some(stated) => Ok(Some(AnchorChange {
            body,
            anchor: stated.anchor,
            epoch: stated.epoch,
            keys: stated.keys,
        })),
        None => Ok(None),
    }
}

// The parts of a compact text, and none where it isn't one.
fn parts(alloc: Global, text: &[u8]) -> Result<Option<Compact>, Memory>
    ensures exact { IfOk result (λ compact. compact ≡ result_ok (splitting text.now)) }
    ensures found { IfOk result (λ compact. IfSome compact (IsCompact text.now)) }
{
    match split(alloc, text) {
        Ok(compact) => Ok(Some(compact)),
        Err(FormFault::Memory) => Err(Memory),
        Err(_) => Ok(None),
    }
}

// What a compact text states, where it is of the type and its claims are of their forms.
#[tactic(auto, unfolding(crate::specs::Steps::stated_in))]
fn stated_in(alloc: Global, body: &Compact) -> Result<Option<Stated>, Memory>
    ensures { IfOk result (λ stated. option_map told_stated stated ≡ stated_in body.now) }
{
    match payload(alloc, body)? {
        Some(payload) => claims_in(alloc, &payload),
        None => Ok(None),
    }
}

// The tree of the payload, where the header's type is the one.
#[tactic(auto, unfolding(crate::specs::Steps::payload_in))]
fn payload(alloc: Global, body: &Compact) -> Result<Option<Json>, Memory>
    ensures tree { IfOk result (λ tree. tree ≡ payload_in body.now) }
    ensures well_formed { IfOk result (λ tree. IfSome tree IsWellFormed) }
{
    if !has_type(body.typ.as_ref()) {
        return Ok(None);
    }
    match read_tree(alloc, body.payload.as_slice()) {
        Ok(tree) => Ok(Some(tree)),
        Err(TreeFault::Syntax) => Ok(None),
        Err(TreeFault::Memory) => Err(Memory),
    }
}

fn has_type(typ: Option<&Text>) -> bool
    ensures { result ≡ has_type (option_copied typ.entry) }
{
    typ.is_some_and(|typ| typ.as_slice() == ANCHOR_KEYS_TYPE)
}

fn claims_in(alloc: Global, payload: &Json) -> Result<Option<Stated>, Memory>
    requires { IsWellFormed payload.now }
    ensures { IfOk result (λ stated. option_map told_stated stated ≡ claims_in payload.now) }
{
    match payload {
        Json::Object(members) => claims_of(alloc, members.as_slice()),
        _ => Ok(None),
    }
}

#[tactic(auto, unfolding(crate::specs::Steps::claims_of))]
fn claims_of(alloc: Global, members: &[Member]) -> Result<Option<Stated>, Memory>
    requires { IsTrue (members_well_formed members.now) }
    ensures { IfOk result (λ stated. option_map told_stated stated ≡ claims_of members.now) }
{
    let Some(anchor) = anchor_at(alloc, members)? else {
        return Ok(None);
    };
    let Some(epoch) = epoch_at(members) else {
        return Ok(None);
    };
    let Some(keys) = keys_at(alloc, members)? else {
        return Ok(None);
    };
    Ok(Some(Stated {
        anchor,
        epoch,
        keys,
    }))
}

fn anchor_at(alloc: Global, members: &[Member]) -> Result<Option<EntityId>, Memory>
    ensures { IfOk result (λ id. id ≡ anchor_at members.now) }
{
    match find(members, b"anchor") {
        Some(tree) => identifier(alloc, tree),
        None => Ok(None),
    }
}

fn epoch_at(members: &[Member]) -> Option<u64>
    ensures { result ≡ epoch_at members.now }
{
    count_below(find(members, b"epoch")?, EPOCH_LIMIT)
}

fn keys_at(alloc: Global, members: &[Member]) -> Result<Option<JwkSet>, Memory>
    requires { IsTrue (members_well_formed members.now) }
    ensures { IfOk result (λ keys. option_map told_keys keys ≡ keys_at members.now) }
{
    let Some(tree) = find(members, b"jwks") else {
        return Ok(None);
    };
    match JwkSet::read(alloc, tree) {
        Ok(keys) => Ok(Some(keys)),
        Err(SetFault::Memory) => Err(Memory),
        Err(_) => Ok(None),
    }
}
