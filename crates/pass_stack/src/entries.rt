ghost use Rattle.std.specs.Prelude.{◌≡◌, IfOk};
ghost use Rattle.wasm_ast.specs.Facts.{facts_of};
ghost use Rattle.pass_stack.specs.Profile.{outside_profile, outside_stack, unbuilt};

use crate::computed::exports_computed;
use crate::outside::Outside;
use pass_law::Settings;
use std::alloc::{AllocError, Global};
use wasm_ast::facts::{Facts, facts_of};
use wasm_ast::features::Feature;
use wasm_ast::module::Module;
use wasm_ast::outside::{first_feature, needs_region, outside};

/// The first entry of the profile's list that holds of the module, if one does; the last entry is the first feature
/// for which no pass is built. No entry depends on the settings. Code that cannot be reached is included. It takes time
/// linear in the module, but for one look-up in a map for each function type, and fails for want of memory alone.
pub fn profile(
    alloc: Global,
    m: &Module,
    _settings: &Settings,
) -> Result<Option<Outside>, AllocError>
    ensures { IfOk result (λ found. found ≡ outside_stack m.now) }
{
    let facts = facts_of(m);
    if let Some(obstacle) = outside(alloc, m, &facts)? {
        return Ok(Some(Outside::from(obstacle)));
    }
    Ok(unbuilt(alloc, m, &facts)?.map(Outside::NotBuilt))
}

/// The first feature of the module that no pass takes yet, if it has one.
fn unbuilt(alloc: Global, m: &Module, facts: &Facts) -> Result<Option<Feature>, AllocError>
    requires { facts.now ≡ facts_of m.now }
    ensures { IfOk result (λ found. found ≡ unbuilt m.now) }
{
    if exports_computed(alloc, m)? {
        return Ok(Some(Feature::Constants));
    }
    let features = [
        Feature::Multi,
        Feature::Simd,
        Feature::LateLanes,
        Feature::Tail,
        Feature::Refs,
        Feature::Tables,
        Feature::Exceptions,
        Feature::Bulk,
        Feature::WideMemory,
    ];
    if let Some(feature) = first_feature(alloc, m, facts, &features)? {
        return Ok(Some(feature));
    }
    if needs_region(alloc, m, facts)? {
        return Ok(Some(Feature::Memories));
    }
    Ok(None)
}

/// The same without the last entry: what keeps the module out of the profile itself, if something does.
pub fn outside_profile(alloc: Global, m: &Module) -> Result<Option<Outside>, AllocError>
    ensures { IfOk result (λ found. found ≡ outside_profile m.now) }
{
    match outside(alloc, m, &facts_of(m))? {
        Some(obstacle) => Ok(Some(Outside::from(obstacle))),
        None => Ok(None),
    }
}
