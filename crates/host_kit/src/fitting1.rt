// Whether a script fits a module of 1.0. Nothing here takes memory. How many functions are imported is counted once.
ghost use Rattle.std.specs.Prelude.{◌≡◌, IsTrue, ◌↔◌, length, filter_map, slice_get};
ghost use Rattle.std.specs.List.{list_all, zip};
ghost use Rattle.core1_ast.specs.Spaces.{func_import};
ghost use Rattle.host_kit.specs.Offered1.{ImportsFuncs1, global_import1};
ghost use Rattle.host_kit.specs.Fits1.{ScriptFits1, results_of1};
ghost use Rattle.host_kit.specs.FitTests.{pairs, few_bytes};
ghost use Rattle.host_kit.specs.FitTests1.{has_type1, have_types1, call_fits1, set_fits1, names_memory1, peek_fits1, poke_fits1, act_fits1, item_fits1, reply_fits1, replies_fit1, script_fits1};

use super::fitting::few_bytes;
use super::offered1::{exported, func_import, func_type, global_type, has_memory, imported_funcs};
use super::script::{Act, Item, Reply, Script};
use super::value::Value;
use super::words::Count;
use core1_ast::module::{ExportDesc1, Import1, ImportDesc1, Module1, Ty1};
use sqlite_items::Items;

/// Whether the script asks for nothing that the module does not offer, with values of the right types and within the
/// ranges that scripts have.
pub fn fits1(m: &Module1, s: &Script) -> bool
    ensures { IsTrue result ↔ ScriptFits1 m.now s.now }
{
    script_fits(m, imported_funcs(m.imports.as_slice()), s)
}

fn script_fits(m: &Module1, imported: usize, s: &Script) -> bool
    requires { ImportsFuncs1 m.now imported }
    ensures { result ≡ script_fits1 m.now s.now }
{
    globals_fit(m, s.globals.as_slice())
        && all_replies_fit(m, imported, s.replies.as_slice())
        && items_fit(m, imported, s.items.as_slice())
}

/// Whether a value has a type.
fn has_type(value: Value, ty: Ty1) -> bool
    ensures { result ≡ has_type1 value ty }
{
    matches!(
        (value, ty),
        (Value::I32(_), Ty1::I32) | (Value::I64(_), Ty1::I64)
    )
}

/// Whether there are as many values as types, each of its type.
fn have_types(values: &[Value], types: &[Ty1]) -> bool
    ensures { result ≡ have_types1 values.now types.now }
{
    values.len() == types.len() && each_has_type(values, types)
}

/// Whether each value has the type at its place.
fn each_has_type(values: &[Value], types: &[Ty1]) -> bool
    ensures { result ≡ list_all (λ p. has_type1 p.0 p.1) (zip values.now types.now) }
{
    values
        .iter()
        .zip(types)
        .all(|(value, ty)| has_type(*value, *ty))
}

/// The type of a global that is imported.
fn global_import(desc: ImportDesc1) -> Option<Ty1>
    ensures { result ≡ global_import1 desc }
{
    match desc {
        ImportDesc1::Global(ty, _) => Some(ty),
        _ => None,
    }
}

/// How many of the imports are globals.
fn imported_globals(imports: &[Import1]) -> usize
    ensures { result ≡ length (filter_map (λ i. global_import1 i.desc) imports.now) }
{
    imports
        .iter()
        .filter_map(|import| global_import(import.desc))
        .count()
}

/// Whether there is one value for each imported global, of its type.
fn globals_fit(m: &Module1, values: &[Value]) -> bool
    ensures { result ≡ have_types1 values.now (filter_map (λ i. global_import1 i.desc) m.now.imports) }
{
    values.len() == imported_globals(m.imports.as_slice()) && each_fits_global(m, values)
}

/// Whether each value has the type of the imported global at its place.
fn each_fits_global(m: &Module1, values: &[Value]) -> bool
    ensures { result ≡ list_all (λ p. has_type1 p.0 p.1)
        (zip values.now (filter_map (λ i. global_import1 i.desc) m.now.imports)) }
{
    let imports = m.imports.as_slice();
    values
        .iter()
        .zip(
            imports
                .iter()
                .filter_map(|import| global_import(import.desc)),
        )
        .all(|(value, ty)| has_type(*value, ty))
}

/// Whether what is exported is a function that takes the arguments.
fn call_fits(m: &Module1, imported: usize, arguments: &[Value], export: Option<ExportDesc1>) -> bool
    requires { ImportsFuncs1 m.now imported }
    ensures { result ≡ call_fits1 m.now arguments.now export }
{
    let Some(ExportDesc1::Func(func)) = export else {
        return false;
    };
    match func_type(m, imported, func) {
        Some(ty) => have_types(arguments, ty.params.as_slice()),
        None => false,
    }
}

/// Whether what is exported is a global that can be set to the value.
fn set_fits(m: &Module1, value: Value, export: Option<ExportDesc1>) -> bool
    ensures { result ≡ set_fits1 m.now value export }
{
    let Some(ExportDesc1::Global(global)) = export else {
        return false;
    };
    match global_type(m, global) {
        Some(ty) => ty.mutable && has_type(value, ty.ty),
        None => false,
    }
}

/// Whether what is exported is a memory.
fn names_memory(m: &Module1, export: Option<ExportDesc1>) -> bool
    ensures { result ≡ names_memory1 m.now export }
{
    match export {
        Some(ExportDesc1::Memory(memory)) => has_memory(m, memory),
        _ => false,
    }
}

/// Whether what is exported is a memory from which a host may read so many bytes.
fn peek_fits(m: &Module1, at: u64, count: u32, export: Option<ExportDesc1>) -> bool
    ensures { result ≡ peek_fits1 m.now at count export }
{
    count <= Count::MOST && names_memory(m, export)
}

/// Whether what is exported is a memory into which a host may write these bytes.
fn poke_fits(m: &Module1, at: u64, bytes: &[u8], export: Option<ExportDesc1>) -> bool
    ensures { result ≡ poke_fits1 m.now at bytes.now export }
{
    few_bytes(bytes) && names_memory(m, export)
}

fn act_fits(m: &Module1, act: &Act) -> bool
    ensures { result ≡ act_fits1 m.now act.now }
{
    match act {
        Act::Set(name, value) => set_fits(m, *value, exported(m, name)),
        Act::Peek(name, at, count) => peek_fits(m, *at, *count, exported(m, name)),
        Act::Poke(name, at, bytes) => poke_fits(m, *at, bytes.as_slice(), exported(m, name)),
    }
}

fn acts_fit(m: &Module1, acts: &[Act]) -> bool
    ensures { result ≡ list_all (act_fits1 m.now) acts.now }
{
    acts.iter().all(|act| act_fits(m, act))
}

fn item_fits(m: &Module1, imported: usize, item: &Item) -> bool
    requires { ImportsFuncs1 m.now imported }
    ensures { result ≡ item_fits1 m.now item.now }
{
    match item {
        Item::Call(name, arguments) => call_fits(
            m,
            imported,
            arguments.as_slice(),
            exported(m, name),
        ),
        Item::Host(act) => act_fits(m, act),
    }
}

fn items_fit(m: &Module1, imported: usize, items: &[Item]) -> bool
    requires { ImportsFuncs1 m.now imported }
    ensures { result ≡ list_all (item_fits1 m.now) items.now }
{
    items.iter().all(|item| item_fits(m, imported, item))
}

fn reply_fits(m: &Module1, results: &[Ty1], reply: &Reply) -> bool
    ensures { result ≡ reply_fits1 m.now results.now reply.now }
{
    acts_fit(m, reply.acts.as_slice()) && have_types(reply.values.as_slice(), results)
}

/// The results of the function type with this index; without one there are none.
fn results_of(m: &Module1, index: u32) -> &[Ty1]
    ensures { result.now ≡ results_of1 (slice_get m.now.types index) }
{
    match m.types.as_slice().get(index as usize) {
        Some(ty) => ty.results.as_slice(),
        None => &[],
    }
}

/// Whether these are replies to a function of the type with this index.
fn replies_fit(m: &Module1, replies: &[Reply], index: u32) -> bool
    ensures { result ≡ replies_fit1 m.now replies.now index }
{
    let results = results_of(m, index);
    replies.iter().all(|reply| reply_fits(m, results, reply))
}

/// Whether there is one list of replies for each imported function, which fits it.
fn all_replies_fit(m: &Module1, imported: usize, replies: &[Items<Reply>]) -> bool
    requires { ImportsFuncs1 m.now imported }
    ensures { result ≡ pairs (replies_fit1 m.now) replies.now (filter_map (λ i. func_import i.desc) m.now.imports) }
{
    replies.len() == imported && each_replies_fit(m, replies)
}

/// Whether each list of replies fits the imported function at its place.
fn each_replies_fit(m: &Module1, replies: &[Items<Reply>]) -> bool
    ensures { result ≡ list_all (λ p. replies_fit1 m.now p.0 p.1)
        (zip replies.now (filter_map (λ i. func_import i.desc) m.now.imports)) }
{
    let imports = m.imports.as_slice();
    replies
        .iter()
        .zip(imports.iter().filter_map(|import| func_import(import.desc)))
        .all(|(replies, index)| replies_fit(m, replies.as_slice(), index))
}
