// The operators of one parameter.

ghost use Rattle.std.specs.Prelude.{◌≡◌, OnOk};
ghost use Rattle.policy_merge.specs.Policies.{no_operators};

use fed_base::{Duplicate, Memory, Seq};
use fed_json::Json;
use std::alloc::Global;

/// The operators of one parameter (OpenID Federation 1.0 section 6.1.3.1); those that are absent say nothing.
#[derive(Drop)]
pub struct Operators {
    /// The parameter's value; null says that the parameter is absent.
    pub value: Option<Json>,
    /// Values that are added.
    pub add: Option<Seq<Json>>,
    /// The value of a parameter that is absent; never null.
    pub default: Option<Json>,
    /// The values of which the parameter is one.
    pub one_of: Option<Seq<Json>>,
    /// The only values that stay.
    pub subset_of: Option<Seq<Json>>,
    /// Values that the parameter has.
    pub superset_of: Option<Seq<Json>>,
    /// Whether the parameter is required.
    pub essential: Option<bool>,
}

impl Operators {
    /// No operator at all. It takes no memory.
    pub fn none() -> Operators
        ensures { result ≡ no_operators }
    {
        Operators {
            value: None,
            add: None,
            default: None,
            one_of: None,
            subset_of: None,
            superset_of: None,
            essential: None,
        }
    }
}

impl Duplicate for Operators {
    fn copy(&self, alloc: Global) -> Result<Self, Memory> {
        let mut copy = Operators::none();
        match copy_into(alloc, self, &mut copy) {
            Ok(()) => Ok(copy),
            Err(Memory) => {
                drop(copy);
                Err(Memory)
            },
        }
    }
}

// Puts a copy of each operator in its place.
fn copy_into(alloc: Global, operators: &Operators, copy: &mut Operators) -> Result<(), Memory>
    ensures { OnOk result (copy.new ≡ operators.now) }
{
    copy_to(alloc, &operators.value, &mut copy.value)?;
    copy_to(alloc, &operators.add, &mut copy.add)?;
    copy_to(alloc, &operators.default, &mut copy.default)?;
    copy_to(alloc, &operators.one_of, &mut copy.one_of)?;
    copy_to(alloc, &operators.subset_of, &mut copy.subset_of)?;
    copy_to(alloc, &operators.superset_of, &mut copy.superset_of)?;
    copy.essential = operators.essential;
    Ok(())
}

fn copy_to<T: Duplicate + Drop>(alloc: Global, value: &T, place: &mut T) -> Result<(), Memory>
    ensures { OnOk result (place.new ≡ value.now) }
{
    *place = value.copy(alloc)?;
    Ok(())
}
