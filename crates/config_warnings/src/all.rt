// All that is warned of.

ghost use Rattle.std.specs.Prelude.{◌≡◌, ◌++◌, [], IfOk, OnOk};
ghost use Rattle.std.specs.Option.{option_map_or};
ghost use Rattle.fed_json.specs.Forms.{IsWellFormed};
ghost use Rattle.node_config.specs.Told.{told, told_resolver};
ghost use Rattle.config_warnings.specs.Warnings.{is_warned, of_resolving, of_settings, warnings};

use crate::ended::of_signer;
use crate::keys::{each_anchor, each_subordinate};
use crate::routes::of_routes;
use crate::scan::of_text;
use crate::source::ConfigText;
use crate::trees::of_tree;
use crate::warning::Warning;
use fed_base::{Memory, Seq};
use key_ring::KeyTerm;
use node_config::{NodeConfig, ResolverConfig};
use std::alloc::Global;

/// What is warned of the node of a configuration, which sets `config`, and of a ring with these keys, at a moment in seconds since 1970:
/// members that stand twice in its text, then by the order of its members, then by what they set, and last of the ring.
#[tactic(auto, unfolding(crate::specs::Warnings::warnings))]
pub fn warnings(
    alloc: Global,
    moment: u64,
    source: &ConfigText,
    config: &NodeConfig,
    keys: &[KeyTerm],
) -> Result<Seq<Warning>, Memory>
    requires { IsWellFormed source.now.tree }
    ensures { IfOk result (λ list. list ≡ warnings moment source.now (told config.now) keys.now) }
{
    let mut out = Seq::new(alloc);
    of_text(alloc, &mut out, source.text.as_slice())?;
    of_tree(alloc, &mut out, &source.tree)?;
    of_settings(alloc, &mut out, config)?;
    of_signer(alloc, &mut out, moment, keys)?;
    Ok(out)
}

fn of_settings(alloc: Global, out: &mut Seq<Warning>, config: &NodeConfig) -> Result<(), Memory>
    ensures { OnOk result (out.new ≡ out.old ++ of_settings (told config.now)) }
{
    each_subordinate(alloc, out, config.subordinates.as_slice())?;
    of_resolver(alloc, out, config)
}

fn of_resolver(alloc: Global, out: &mut Seq<Warning>, config: &NodeConfig) -> Result<(), Memory>
    ensures { OnOk result (out.new ≡ out.old ++ option_map_or of_resolving (told config.now).resolver []) }
{
    match &config.resolver {
        Some(resolver) => of_resolving(alloc, out, resolver),
        None => Ok(()),
    }
}

fn of_resolving(
    alloc: Global,
    out: &mut Seq<Warning>,
    resolver: &ResolverConfig,
) -> Result<(), Memory>
    ensures { OnOk result (out.new ≡ out.old ++ of_resolving (told_resolver resolver.now)) }
{
    let routes = resolver.routes.as_slice();
    each_anchor(alloc, out, routes, resolver.anchors.as_slice())?;
    of_routes(alloc, out, routes)
}

/// Whether something is warned of.
pub fn is_warned(list: &[Warning]) -> bool
    ensures { result ≡ is_warned list.now }
{
    match list {
        [] => false,
        [_, ..] => true,
    }
}
