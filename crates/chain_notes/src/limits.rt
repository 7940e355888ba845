// Constraints that a chain doesn't meet.

use chain_limits::Constraints;
use entity_id::matches_name;
use entity_statement::SignedStatement;
use fed_base::{Seq, Text};
use plain_notes::{Notes, Sentence};
use std::alloc::Global;

/// Says how long a path the statement at the place allows.
pub(crate) fn explain_path(
    alloc: Global,
    limits: &Constraints,
    place: u64,
    about: Sentence,
    notes: &mut Notes,
) {
    notes.say(
        about
            .and(b" allows a max_path_length of ")
            .and_number(alloc, limits.max_path.unwrap_or(0))
            .and(b"; between it and the leaf stand ")
            .and_number(alloc, place.saturating_sub(1)),
    );
}

/// Says which host the naming constraints of the statement at the place refuse: that of the least place up to it.
pub(crate) fn explain_name(
    alloc: Global,
    entries: &[SignedStatement],
    limits: &Constraints,
    about: Sentence,
    notes: &mut Notes,
) {
    let refused = entries.iter().enumerate().find(|entry| !name_fault(
        limits,
        entry.1.statement.sub.host(),
    ).is_empty());
    match refused {
        Some((at, below)) => {
            let host = below.statement.sub.host();
            notes.say(
                about
                    .and(b": the host ")
                    .and(host)
                    .and(b" of place ")
                    .and_number(alloc, at as u64)
                    .and(name_fault(limits, host)),
            );
        }
        None => drop(about),
    }
}

// Why the constraints refuse the host, or nothing.
fn name_fault(limits: &Constraints, host: &[u8]) -> &'static [u8] {
    if matches_any(host, &limits.excluded) {
        return b" matches a name of excluded";
    }
    match &limits.permitted {
        Some(names) => if matches_any(host, names) {
            b""
        } else {
            b" matches no name of permitted"
        },
        None => b"",
    }
}

fn matches_any(host: &[u8], names: &Seq<Text>) -> bool {
    names
        .as_slice()
        .iter()
        .any(|name| matches_name(host, name.as_slice()))
}
