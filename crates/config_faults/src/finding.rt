// The first fault of a configuration.

ghost use Rattle.std.specs.Prelude.{◌≡◌, IfOk};
ghost use Rattle.fed_json.specs.Forms.{IsWellFormed};
ghost use Rattle.node_config.specs.Configurations.{configuration_in};
ghost use Rattle.config_faults.specs.Telling.{Tells};

use crate::fault::{Fault, Kind, found_in};
use crate::forms::Form;
use crate::members::member_in;
use crate::stop::Stop;
use fed_base::{Duplicate, Memory, Text};
use fed_json::{Json, find, object_members};
use node_config::{ConfigFault, NodeConfig};
use std::alloc::Global;

/// Why no configuration is read of the tree: the first member that isn't of its form, in the order in which [`NodeConfig::read`] looks at
/// them, and the first place in it that isn't. `None` where one is read.
pub fn config_fault(alloc: Global, config: &Json) -> Result<Option<Fault>, Memory>
    requires { IsWellFormed config.now }
    ensures { IfOk result (λ fault. Tells fault (configuration_in config.now)) }
{
    match NodeConfig::read(alloc, config) {
        Ok(node) => {
            drop(node);
            Ok(None)
        }
        Err(ConfigFault::Shape(member)) => Ok(Some(fault_of(alloc, config, member)?)),
        Err(ConfigFault::Memory) => Err(Memory),
    }
}

// The fault of the member, which isn't of its form.
fn fault_of(alloc: Global, config: &Json, member: Text) -> Result<Fault, Memory>
    ensures { IfOk result (λ fault. fault.member ≡ member) }
{
    let (place, kind) = place_in(alloc, config, &member)?;
    Ok(Fault {
        member,
        place,
        kind,
    })
}

fn place_in(alloc: Global, config: &Json, member: &Text) -> Result<(Text, Kind), Memory> {
    match member_in(alloc, config, member.as_slice()) {
        Err(Stop::Found(place, kind)) => Ok((place, kind)),
        Err(Stop::Memory) => Err(Memory),
        Ok(()) => Ok((member.copy(alloc)?, whole_of(alloc, config, member)?)),
    }
}

// What is said of a member in which no place is found.
fn whole_of(alloc: Global, config: &Json, member: &Text) -> Result<Kind, Memory> {
    match find(object_members(config), member.as_slice()) {
        Some(tree) => Ok(Kind::Other(Form::Documented, found_in(alloc, tree)?)),
        None => Ok(Kind::Missing(Form::Documented)),
    }
}
