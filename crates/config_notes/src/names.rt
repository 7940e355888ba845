// Names that were likely meant.

use config_warnings::Part;
use plain_notes::is_like;

// The names of the members that mean something there.
fn names_of(part: Part) -> &'static [&'static str] {
    match part {
        Part::Node => &[
            "entity_id",
            "ring",
            "lifetime",
            "metadata",
            "authority_hints",
            "trust_marks",
            "trust_mark_issuers",
            "trust_mark_owners",
            "subordinates",
            "revoked_marks",
            "resolver",
        ],
        Part::Subordinate => &[
            "entity_id",
            "jwks",
            "metadata",
            "metadata_policy",
            "metadata_policy_crit",
            "constraints",
            "entity_types",
            "mark_types",
            "intermediate",
        ],
        Part::Operators => &[
            "value",
            "add",
            "default",
            "one_of",
            "subset_of",
            "superset_of",
            "essential",
        ],
        _ => further_names_of(part),
    }
}

fn further_names_of(part: Part) -> &'static [&'static str] {
    match part {
        Part::Constraints => &[
            "max_path_length",
            "naming_constraints",
            "allowed_entity_types",
        ],
        Part::Naming => &["permitted", "excluded"],
        Part::Resolver => &["anchors", "age", "workers", "control", "routes"],
        Part::Anchor => &["entity_id", "jwks", "depth", "calls", "paths"],
        Part::Route => &["host", "ip", "port"],
        Part::Mark => &["trust_mark_type", "trust_mark"],
        _ => &["sub", "jwks"],
    }
}

/// The name that was likely meant by one that isn't known there, where one is like it.
pub(crate) fn meant_by(part: Part, name: &[u8]) -> Option<&'static str> {
    names_of(part)
        .iter()
        .find(|known| is_like(name, known.as_bytes()))
        .copied()
}
