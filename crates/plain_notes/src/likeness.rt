// Words that look like others.

/// Whether two words differ in one letter at most, which one has more or both have otherwise, or in two that changed places. The case of
/// ASCII letters doesn't count.
pub fn is_like(word: &[u8], other: &[u8]) -> bool {
    let (word, other) = behind_front(word, other);
    match (word, other) {
        ([], []) | ([_], []) | ([], [_]) => true,
        ([_, rest @ ..], []) | ([], [_, rest @ ..]) => rest.is_empty(),
        ([a, rest @ ..], [b, others @ ..]) => {
            rest.eq_ignore_ascii_case(others)
                || word.eq_ignore_ascii_case(others)
                || rest.eq_ignore_ascii_case(other)
                || changed_places(*a, rest, *b, others)
        }
    }
}

// Both words from the first letter on in which they differ.
fn behind_front<'a, 'b>(word: &'a [u8], other: &'b [u8]) -> (&'a [u8], &'b [u8]) {
    match (word, other) {
        ([a, rest @ ..], [b, others @ ..]) if a.eq_ignore_ascii_case(b) => {
            behind_front(rest, others)
        }
        _ => (word, other),
    }
}

// Whether two letters changed places, and the rest is the same.
fn changed_places(a: u8, rest: &[u8], b: u8, others: &[u8]) -> bool {
    match (rest, others) {
        ([c, rest @ ..], [d, others @ ..]) => {
            a.eq_ignore_ascii_case(d)
                && b.eq_ignore_ascii_case(c)
                && rest.eq_ignore_ascii_case(others)
        }
        _ => false,
    }
}
