// Values in pairs. A `?` behind one has no other value to let go.

ghost use Rattle.trust_mark.specs.Stages.{Paired};

/// The first value with the second, where there is a second. Else its fault, and the first is dropped.
pub(crate) fn both<A: Drop, B, E>(first: A, second: Result<B, E>) -> Result<(A, B), E>
    ensures { Paired first second result }
{
    match second {
        Ok(second) => Ok((first, second)),
        Err(fault) => Err(fault),
    }
}
