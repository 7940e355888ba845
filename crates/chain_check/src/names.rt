// Issuers and subjects along a chain.

ghost use Rattle.std.specs.Prelude.{◌≡◌, ◌≢◌, ◌<◌, ◌≤◌, ◌+◌, ◌-◌, ◌⊎◌, ◌↔◌, IsTrue, length};
ghost use Rattle.chain_check.specs.declared.reason.Reason.TheVariants.{Names};
ghost use Rattle.fed_base.specs.Places.{HoldsBelow};
ghost use Rattle.chain_check.specs.Names.{HasNames, LosesNames, NamesFit, IsAnchor, IsConfiguration, IsLeaf, issuer_at, subject_at};
ghost use Rattle.chain_check.specs.Reading.{claims_in};
ghost use Rattle.chain_check.specs.Stages.{Passes};

use crate::reason::Reason;
use crate::stop::Stop;
use entity_id::EntityId;
use entity_statement::SignedStatement;

/// Looks whether the statements make a chain to the trust anchor by their issuers and subjects.
pub(crate) fn check_names(entries: &[SignedStatement], anchor: &EntityId) -> Result<(), Stop>
    ensures { Passes result (λ _. HasNames (claims_in entries.now) anchor.now)
        (λ place reason. (reason ≡ Names) × LosesNames (claims_in entries.now) anchor.now place) }
{
    for j in 0..entries.len() {
        if !names_fit(entries, anchor, j) {
            return Err(Stop::Refused {
                place: j as u64,
                reason: Reason::Names,
            });
        }
    }
    Ok(())
}

fn names_fit(entries: &[SignedStatement], anchor: &EntityId, j: usize) -> bool
    requires { j < length entries.now }
    ensures { IsTrue result ↔ NamesFit (claims_in entries.now) anchor.now j }
{
    !(entries.len() == 2 && j == 1)
        && is_of_kind(entries, j)
        && is_linked(entries, j)
        && is_distinct(entries, j)
        && is_anchored(entries, anchor, j)
}

fn is_of_kind(entries: &[SignedStatement], j: usize) -> bool
    requires { j < length entries.now }
    ensures { IsTrue result
        ↔ (IsConfiguration (claims_in entries.now) j ↔ (IsLeaf j ⊎ IsAnchor (claims_in entries.now) j)) }
{
    let statement = &entries[j].statement;
    if statement.iss == statement.sub {
        j == 0 || j + 1 == entries.len()
    } else {
        j != 0 && j + 1 != entries.len()
    }
}

fn is_linked(entries: &[SignedStatement], j: usize) -> bool
    requires { j < length entries.now }
    ensures { IsTrue result
        ↔ (1 ≤ j → subject_at (claims_in entries.now) j ≡ issuer_at (claims_in entries.now) (j - 1)) }
{
    j == 0 || entries[j].statement.sub == entries[j - 1].statement.iss
}

fn is_distinct(entries: &[SignedStatement], j: usize) -> bool
    requires { j < length entries.now }
    ensures { IsTrue result ↔ (j + 1 < length (claims_in entries.now)
        → HoldsBelow (λ i. issuer_at (claims_in entries.now) i ≢ issuer_at (claims_in entries.now) j) j) }
{
    if j + 1 == entries.len() {
        return true;
    }
    let issuer = &entries[j].statement.iss;
    for i in 0..j {
        if entries[i].statement.iss == *issuer {
            return false;
        }
    }
    true
}

fn is_anchored(entries: &[SignedStatement], anchor: &EntityId, j: usize) -> bool
    requires { j < length entries.now }
    ensures { IsTrue result
        ↔ (IsAnchor (claims_in entries.now) j → issuer_at (claims_in entries.now) j ≡ anchor.now) }
{
    j + 1 != entries.len() || entries[j].statement.iss == *anchor
}
