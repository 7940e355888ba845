// The seven operators.

ghost use Rattle.std.specs.Prelude.{◌≡◌};
ghost use Rattle.policy_merge.specs.Names.{operator_name};

/// An operator of a metadata policy (OpenID Federation 1.0 section 6.1.3.1).
#[derive(Clone, Copy, Debug, PartialEq, Eq, Drop)]
pub enum Operator {
    /// `value` sets the parameter, or removes it (section 6.1.3.1.1).
    Value,
    /// `add` adds values to the parameter (section 6.1.3.1.2).
    Add,
    /// `default` sets a parameter that is absent (section 6.1.3.1.3).
    Default,
    /// `one_of` lists the values of which the parameter is one (section 6.1.3.1.4).
    OneOf,
    /// `subset_of` lists the only values that stay (section 6.1.3.1.5).
    SubsetOf,
    /// `superset_of` lists values that the parameter must have (section 6.1.3.1.6).
    SupersetOf,
    /// `essential` says whether the parameter must be there (section 6.1.3.1.7).
    Essential,
}

/// The seven operators, in the order in which they act (section 6.1.3.1).
pub const OPERATORS: [Operator; 7] = [
    Operator::Value,
    Operator::Add,
    Operator::Default,
    Operator::OneOf,
    Operator::SubsetOf,
    Operator::SupersetOf,
    Operator::Essential,
];

impl Operator {
    /// The operator's name in a policy, as `subset_of`.
    pub fn name(self) -> &'static str
        ensures { result.now ≡ operator_name self }
    {
        match self {
            Operator::Value => "value",
            Operator::Add => "add",
            Operator::Default => "default",
            Operator::OneOf => "one_of",
            Operator::SubsetOf => "subset_of",
            Operator::SupersetOf => "superset_of",
            Operator::Essential => "essential",
        }
    }
}
