// What has become of a trust mark.

ghost use Rattle.std.specs.Prelude.{◌≡◌, Some, IfOk, IfSome, MatchResult};
ghost use Rattle.std.specs.Option.{option_and_then};
ghost use Rattle.std.specs.Result.{result_ok};
ghost use Rattle.jws_form.specs.Compact.{IsCompact};
ghost use Rattle.jws_form.specs.Splitting.{splitting};
ghost use Rattle.key_ring.specs.Sets.{kept_set};
ghost use Rattle.sealed.specs.Deciding.{is_sealed_by};
ghost use Rattle.sealed.specs.Tests.{tests_under};
ghost use Rattle.trust_mark.specs.Claims.{mark_claims};
ghost use Rattle.authority_core.specs.Nodes.{node_of};
ghost use Rattle.authority_core.specs.Statuses.{has_ended, if_issued_by, own_mark, standing, status_of, status_tests};
ghost use Rattle.fed_base.specs.Counts.{counted};

use crate::query::is_among;
use entity_id::EntityId;
use fed_base::{Ledger, Memory, Steps, Text};
use jws_form::{Compact, FormFault, split};
use key_ring::KeyRing;
use node_config::NodeConfig;
use sealed::is_sealed;
use std::alloc::Global;
use trust_mark::{Mark, MarkFault, MarkStatus};

/// What has become of the mark, at a moment in seconds since 1970.
#[tactic(auto, unfolding(crate::specs::Statuses::status_of))]
pub(crate) fn status_of<L: Ledger>(
    alloc: Global,
    node: &NodeConfig,
    ring: &KeyRing,
    t: u64,
    text: &Text,
    steps: &mut Steps<L>,
) -> Result<MarkStatus, Memory>
    ensures status { IfOk result (λ status. status ≡ status_of (node_of node.now ring.now) t text.now) }
    ensures counted { MatchResult result
        (λ _. L.count steps.new.ledger ≡ counted (status_tests (node_of node.now ring.now) text.now) (L.count steps.old.ledger))
        (λ _. L.count steps.new.ledger ≡ L.count steps.old.ledger) }
{
    match own_mark(alloc, node, ring, text, steps)? {
        Some(mark) => Ok(standing(node, t, text, &mark)),
        None => Ok(MarkStatus::Invalid),
    }
}

// What has become of a mark of the node's own.
fn standing(node: &NodeConfig, t: u64, text: &Text, mark: &Mark) -> MarkStatus
    ensures { result ≡ standing node.now.revoked t text.now mark.now }
{
    if is_among(node.revoked.as_slice(), text) {
        MarkStatus::Revoked
    } else if has_ended(t, mark) {
        MarkStatus::Expired
    } else {
        MarkStatus::Active
    }
}

// Whether the mark has ended.
fn has_ended(t: u64, mark: &Mark) -> bool
    ensures { result ≡ has_ended t mark.now }
{
    match mark.exp {
        Some(exp) => exp <= t,
        None => false,
    }
}

// The mark of the node's own that the text is.
fn own_mark<L: Ledger>(
    alloc: Global,
    node: &NodeConfig,
    ring: &KeyRing,
    text: &Text,
    steps: &mut Steps<L>,
) -> Result<Option<Mark>, Memory>
    ensures mark { IfOk result (λ mark. mark ≡ own_mark (node_of node.now ring.now) text.now) }
    ensures counted { MatchResult result
        (λ _. L.count steps.new.ledger ≡ counted (status_tests (node_of node.now ring.now) text.now) (L.count steps.old.ledger))
        (λ _. L.count steps.new.ledger ≡ L.count steps.old.ledger) }
{
    match parts(alloc, text)? {
        Some(compact) => own_mark_in(alloc, node, ring, &compact, steps),
        None => Ok(None),
    }
}

// The mark of the node's own that the parts of a text are.
fn own_mark_in<L: Ledger>(
    alloc: Global,
    node: &NodeConfig,
    ring: &KeyRing,
    compact: &Compact,
    steps: &mut Steps<L>,
) -> Result<Option<Mark>, Memory>
    requires parts { Some compact.now ≡ result_ok (splitting compact.now.whole) }
    requires is { IsCompact compact.now.whole compact.now }
    ensures mark { IfOk result (λ mark. mark ≡ own_mark (node_of node.now ring.now) compact.now.whole) }
    ensures counted { MatchResult result
        (λ _. L.count steps.new.ledger ≡ counted (status_tests (node_of node.now ring.now) compact.now.whole) (L.count steps.old.ledger))
        (λ _. L.count steps.new.ledger ≡ L.count steps.old.ledger) }
{
    let Some(mark) = mark_in(alloc, &node.id, compact)? else {
        return Ok(None);
    };
    if is_kept(alloc, ring, compact, steps)? {
        Ok(Some(mark))
    } else {
        Ok(None)
    }
}

// Whether a key that the ring keeps seals the text.
fn is_kept<L: Ledger>(
    alloc: Global,
    ring: &KeyRing,
    compact: &Compact,
    steps: &mut Steps<L>,
) -> Result<bool, Memory>
    requires { IsCompact compact.now.whole compact.now }
    ensures test { IfOk result (λ kept. kept ≡ is_sealed_by compact.now.whole (kept_set ring.now)) }
    ensures counted { MatchResult result
        (λ _. L.count steps.new.ledger ≡ counted (tests_under (kept_set ring.now) compact.now.whole) (L.count steps.old.ledger))
        (λ _. L.count steps.new.ledger ≡ L.count steps.old.ledger) }
{
    let kept = ring.kept_set(alloc)?;
    is_sealed(alloc, compact, &kept, steps)
}

// The mark that the parts of a text are, where it names that issuer.
fn mark_in(alloc: Global, id: &EntityId, compact: &Compact) -> Result<Option<Mark>, Memory>
    ensures { IfOk result (λ mark. mark ≡ option_and_then (if_issued_by id.now) (result_ok (mark_claims compact.now))) }
{
    match Mark::read(alloc, compact) {
        Ok(mark) => {
            if mark.iss.text() == id.text() {
                Ok(Some(mark))
            } else {
                Ok(None)
            }
        }
        Err(MarkFault::Memory) => Err(Memory),
        Err(_) => Ok(None),
    }
}

// The parts of a compact text, and `None` where it is none.
fn parts(alloc: Global, text: &Text) -> Result<Option<Compact>, Memory>
    ensures exact { IfOk result (λ compact. compact ≡ result_ok (splitting text.now)) }
    ensures found { IfOk result (λ compact. IfSome compact (IsCompact text.now)) }
{
    match split(alloc, text.as_slice()) {
        Ok(compact) => Ok(Some(compact)),
        Err(FormFault::Memory) => Err(Memory),
        Err(_) => Ok(None),
    }
}
