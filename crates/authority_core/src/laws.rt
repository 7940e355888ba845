//! What follows of what authorities issue, whoever they are and whenever they issued it.
ghost use Rattle.authority_core.specs.Issued.{ShortClaimsFit};
ghost use Rattle.authority_core.specs.Issues.{IssuesAreRead, IssuesAreRefusedOnly};
ghost use Rattle.authority_core.specs.Nestings.{StatesAsConfigured, StatesAsRead};

/// Claims of at most 179,000 bytes make a statement, a trust mark or a delegation of at most 262,144 bytes, whichever key pair signs it, of
/// either algorithm. It does nothing.
pub fn short_claims_fit()
    ensures { ShortClaimsFit }
{}

/// The statements of a chain of issues are those that were issued. It does nothing.
pub fn issues_are_read()
    ensures { IssuesAreRead }
{}

/// A chain of issues is refused for nothing but its length, its names, its times, limits, policies, or keys of a superior that don't name
/// the signer. It does nothing.
pub fn issues_are_refused_only()
    ensures { IssuesAreRefusedOnly }
{}

/// What a node states is nested at most 127 deep where its configuration is, as it is where that was read from a text. So what it issues
/// is read again. It does nothing.
pub fn nodes_state_shallowly()
    ensures configured { StatesAsConfigured }
    ensures read { StatesAsRead }
{}
