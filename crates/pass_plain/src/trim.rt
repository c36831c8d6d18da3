// Comes in: a module of 3.0. Goes out: the same module without nops, exports of tags, and a count of data segments that
// no body asks for.
// Each node but a nop stays, and so does each export but a tag.
// Assumed: nothing beside that the module is typed, so that its exports have different names.
// Right because: a nop does nothing in no turn, no script asks for a tag, and no instruction reads the count.

ghost use Rattle.std.specs.Prelude.{◌≡◌, ◌≤◌, ◌++◌, [], ◌∷◌, true, IsTrue, IfOk, OnOk};
ghost use Rattle.typed_trees.specs.Typed.{module_of};
ghost use Rattle.rewriting_kit.specs.Rewrites.{Stays};
ghost use Rattle.pass_law.specs.Law.{Law};
ghost use Rattle.pass_law.specs.Needs.{needs_of};
ghost use Rattle.pass_law.specs.Stages.{Stage};
ghost use Rattle.pass_plain.specs.Bodies.{no_entry};
ghost use Rattle.pass_plain.specs.Plans.{trim_plan, trim_lawful};
ghost use Rattle.pass_plain.specs.Trimming.{by_trimming, untagged, used_count, trimmed_part};

use crate::bodies::rewrite_functions;
use crate::counts::ask_for_count;
use owned_lists::Drain;
use pass_law::{Pass, Settings};
use rewriting_kit::{Rewriting, keep};
use sqlite_items::Items;
use std::alloc::{AllocError, Global};
use std::mem;
use typed_trees::{Nodes, Signature, TypedFn, TypedModule};
use wasm_ast::module::{Export, ExportDesc, Instr, Module};

/// The stage that drops what does nothing and what no host of 1.0 is shown.
#[derive(Clone, Copy)]
pub struct Trim;

impl Rewriting<()> for Trim {
    ghost entry = { λ s. no_entry };

    ghost layer = { λ s. by_trimming };

    fn entry(&self, _head: &Instr) -> ()
        ensures { result ≡ no_entry _head.now }
    {}

    fn stays(&self, head: &Instr) -> bool
        ensures { IsTrue result → Stays by_trimming head.now }
    {
        !matches!(head, Instr::Nop)
    }

    fn layer(
        &self,
        alloc: Global,
        _around: &[()],
        head: Instr,
        types: Signature,
        first: Nodes,
        second: Nodes,
        out: &mut Nodes,
    ) -> Result<(), AllocError>
        ensures { OnOk result (out.new ≡ out.old ++ by_trimming _around.now head types.0 types.1 first second) }
    {
        match head {
            Instr::Nop => Ok(()),
            _ => keep(alloc, head, types, first, second, out),
        }
    }
}

/// Puts an export that is no tag behind others.
fn put_untagged(export: Export, out: &mut Items<Export>) -> Result<(), AllocError>
    ensures { OnOk result (out.new ≡ out.old ++ untagged (export ∷ [])) }
{
    match export.desc {
        ExportDesc::Tag(_) => Ok(()),
        _ => out.push(export),
    }
}

/// The exports that are no tags.
fn untagged_exports(alloc: Global, exports: Items<Export>) -> Result<Items<Export>, AllocError>
    ensures { IfOk result (λ kept. kept ≡ untagged exports) }
{
    let mut kept = Items::from_vec(Vec::with_capacity(alloc, exports.len())?);
    let mut rest = Drain::new(alloc, exports)?;
    while let Some(export) = rest.next() {
        put_untagged(export, &mut kept)?;
    }
    Ok(kept)
}

/// The count of data segments, where some body asks for it. Most modules have none, and then no body is looked at.
fn used_count(count: Option<u32>, fns: &[TypedFn]) -> Option<u32>
    ensures { result ≡ used_count count fns.now }
{
    match count {
        Some(_) if ask_for_count(fns) => count,
        _ => None,
    }
}

/// The parts without what goes.
fn trimmed_part(alloc: Global, part: Module, fns: &[TypedFn]) -> Result<Module, AllocError>
    ensures { IfOk result (λ new. new ≡ trimmed_part (part, fns.now)) }
{
    let mut new = part;
    new.data_count = used_count(new.data_count, fns);
    let exports = mem::replace(&mut new.exports, Items::new(alloc));
    new.exports = untagged_exports(alloc, exports)?;
    Ok(new)
}

impl Pass for Trim {
    ghost plan = { trim_plan };

    fn lower_owned(
        &self,
        alloc: Global,
        m: TypedModule,
        settings: &Settings,
    ) -> Result<TypedModule, AllocError>
        requires takes { trim_plan.takes (needs_of (module_of m)) ≡ true }
        requires stage { Stage (module_of m) }
        requires least { 1 ≤ settings.now.captures }
        requires most { settings.now.captures ≤ 16384 }
        ensures law { IfOk result (λ o. Law trim_plan (module_of m) (module_of o) settings.now.captures) }
    {
        let (part, fns) = m.into_tree();
        let part = trimmed_part(alloc, part, fns.as_slice())?;
        let fns = rewrite_functions(alloc, self, fns)?;
        Ok(TypedModule::build(part, fns))
    }

    ghost lawful = { trim_lawful };
}
