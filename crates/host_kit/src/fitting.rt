// Whether a script fits a module of 3.0. Nothing here takes memory. How many functions are imported is counted once.
ghost use Rattle.std.specs.Prelude.{◌≡◌, IsTrue, ◌↔◌, length, filter_map, slice_get};
ghost use Rattle.std.specs.List.{list_all, zip};
ghost use Rattle.wasm_ast.specs.Spaces.{func_import, global_import, func_indices};
ghost use Rattle.host_kit.specs.Offered.{ImportsFuncs, all_globals};
ghost use Rattle.host_kit.specs.Fits.{ScriptFits, results_of};
ghost use Rattle.host_kit.specs.FitTests.{pairs, has_type, have_types, call_fits, set_fits, names_memory, few_bytes, peek_fits, poke_fits, act_fits, item_fits, reply_fits, replies_fit, script_fits};

use super::offered::{
    exported, func_import, func_type, global_type, has_func, has_memory, imported_funcs,
};
use super::script::{Act, Item, Reply, Script};
use super::value::Value;
use super::words::Count;
use sqlite_items::Items;
use wasm_ast::module::{ExportDesc, Import, ImportDesc, Module, Ty};

/// Whether the script asks for nothing that the module does not offer, with values of the right types and within the
/// ranges that scripts have.
pub fn fits(m: &Module, s: &Script) -> bool
    ensures { IsTrue result ↔ ScriptFits m.now s.now }
{
    script_fits(m, imported_funcs(m.imports.as_slice()), s)
}

fn script_fits(m: &Module, imported: usize, s: &Script) -> bool
    requires { ImportsFuncs m.now imported }
    ensures { result ≡ script_fits m.now s.now }
{
    globals_fit(m, imported, s.globals.as_slice())
        && all_replies_fit(m, imported, s.replies.as_slice())
        && items_fit(m, imported, s.items.as_slice())
}

/// Whether a value has a type.
fn has_type(m: &Module, imported: usize, value: Value, ty: Ty) -> bool
    requires { ImportsFuncs m.now imported }
    ensures { result ≡ has_type (length (func_indices m.now)) value ty }
{
    match (value, ty) {
        (Value::I32(_), Ty::I32) | (Value::I64(_), Ty::I64) | (Value::V128(_, _), Ty::V128) => true,
        (Value::Func(func), Ty::Func) => has_func(m, imported, func),
        (Value::Extern(number), Ty::Extern) => number < u32::MAX,
        (Value::NullFunc, Ty::Func) | (Value::NullExtern, Ty::Extern) => true,
        _ => false,
    }
}

/// Whether there are as many values as types, each of its type.
fn have_types(m: &Module, imported: usize, values: &[Value], types: &[Ty]) -> bool
    requires { ImportsFuncs m.now imported }
    ensures { result ≡ have_types m.now values.now types.now }
{
    values.len() == types.len() && each_has_type(m, imported, values, types)
}

/// Whether each value has the type at its place.
fn each_has_type(m: &Module, imported: usize, values: &[Value], types: &[Ty]) -> bool
    requires { ImportsFuncs m.now imported }
    ensures { result ≡ list_all (λ p. has_type (length (func_indices m.now)) p.0 p.1) (zip values.now types.now) }
{
    values
        .iter()
        .zip(types)
        .all(|(value, ty)| has_type(m, imported, *value, *ty))
}

/// The type of a global that is imported.
fn global_import(desc: ImportDesc) -> Option<Ty>
    ensures { result ≡ global_import desc }
{
    match desc {
        ImportDesc::Global(ty, _) => Some(ty),
        _ => None,
    }
}

/// How many of the imports are globals.
fn imported_globals(imports: &[Import]) -> usize
    ensures { result ≡ length (filter_map (λ i. global_import i.desc) imports.now) }
{
    imports
        .iter()
        .filter_map(|import| global_import(import.desc))
        .count()
}

/// Whether there is one value for each imported global, of its type.
fn globals_fit(m: &Module, imported: usize, values: &[Value]) -> bool
    requires { ImportsFuncs m.now imported }
    ensures { result ≡ have_types m.now values.now (filter_map (λ i. global_import i.desc) m.now.imports) }
{
    values.len() == imported_globals(m.imports.as_slice()) && each_fits_global(m, imported, values)
}

/// Whether each value has the type of the imported global at its place.
fn each_fits_global(m: &Module, imported: usize, values: &[Value]) -> bool
    requires { ImportsFuncs m.now imported }
    ensures { result ≡ list_all (λ p. has_type (length (func_indices m.now)) p.0 p.1)
        (zip values.now (filter_map (λ i. global_import i.desc) m.now.imports)) }
{
    let imports = m.imports.as_slice();
    values
        .iter()
        .zip(
            imports
                .iter()
                .filter_map(|import| global_import(import.desc)),
        )
        .all(|(value, ty)| has_type(m, imported, *value, ty))
}

/// Whether what is exported is a function that takes the arguments.
fn call_fits(m: &Module, imported: usize, arguments: &[Value], export: Option<ExportDesc>) -> bool
    requires { ImportsFuncs m.now imported }
    ensures { result ≡ call_fits m.now arguments.now export }
{
    let Some(ExportDesc::Func(func)) = export else {
        return false;
    };
    match func_type(m, imported, func) {
        Some(ty) => have_types(m, imported, arguments, ty.params.as_slice()),
        None => false,
    }
}

/// Whether what is exported is a global that can be set to the value.
fn set_fits(m: &Module, imported: usize, value: Value, export: Option<ExportDesc>) -> bool
    requires { ImportsFuncs m.now imported }
    ensures { result ≡ set_fits m.now value export }
{
    let Some(ExportDesc::Global(global)) = export else {
        return false;
    };
    match global_type(m, global) {
        Some(ty) => ty.mutable && has_type(m, imported, value, ty.ty),
        None => false,
    }
}

/// Whether what is exported is a memory.
fn names_memory(m: &Module, export: Option<ExportDesc>) -> bool
    ensures { result ≡ names_memory m.now export }
{
    match export {
        Some(ExportDesc::Memory(memory)) => has_memory(m, memory),
        _ => false,
    }
}

/// Whether a host may write so many bytes at once.
pub(crate) fn few_bytes(bytes: &[u8]) -> bool
    ensures { result ≡ few_bytes bytes.now }
{
    bytes.len() <= Count::MOST as usize
}

/// Whether what is exported is a memory from which a host may read so many bytes.
fn peek_fits(m: &Module, at: u64, count: u32, export: Option<ExportDesc>) -> bool
    ensures { result ≡ peek_fits m.now at count export }
{
    count <= Count::MOST && names_memory(m, export)
}

/// Whether what is exported is a memory into which a host may write these bytes.
fn poke_fits(m: &Module, at: u64, bytes: &[u8], export: Option<ExportDesc>) -> bool
    ensures { result ≡ poke_fits m.now at bytes.now export }
{
    few_bytes(bytes) && names_memory(m, export)
}

fn act_fits(m: &Module, imported: usize, act: &Act) -> bool
    requires { ImportsFuncs m.now imported }
    ensures { result ≡ act_fits m.now act.now }
{
    match act {
        Act::Set(name, value) => set_fits(m, imported, *value, exported(m, name)),
        Act::Peek(name, at, count) => peek_fits(m, *at, *count, exported(m, name)),
        Act::Poke(name, at, bytes) => poke_fits(m, *at, bytes.as_slice(), exported(m, name)),
    }
}

fn acts_fit(m: &Module, imported: usize, acts: &[Act]) -> bool
    requires { ImportsFuncs m.now imported }
    ensures { result ≡ list_all (act_fits m.now) acts.now }
{
    acts.iter().all(|act| act_fits(m, imported, act))
}

fn item_fits(m: &Module, imported: usize, item: &Item) -> bool
    requires { ImportsFuncs m.now imported }
    ensures { result ≡ item_fits m.now item.now }
{
    match item {
        Item::Call(name, arguments) => call_fits(
            m,
            imported,
            arguments.as_slice(),
            exported(m, name),
        ),
        Item::Host(act) => act_fits(m, imported, act),
    }
}

fn items_fit(m: &Module, imported: usize, items: &[Item]) -> bool
    requires { ImportsFuncs m.now imported }
    ensures { result ≡ list_all (item_fits m.now) items.now }
{
    items.iter().all(|item| item_fits(m, imported, item))
}

fn reply_fits(m: &Module, imported: usize, results: &[Ty], reply: &Reply) -> bool
    requires { ImportsFuncs m.now imported }
    ensures { result ≡ reply_fits m.now results.now reply.now }
{
    acts_fit(m, imported, reply.acts.as_slice())
        && have_types(m, imported, reply.values.as_slice(), results)
}

/// The results of the function type with this index; without one there are none.
fn results_of(m: &Module, index: u32) -> &[Ty]
    ensures { result.now ≡ results_of (slice_get m.now.types index) }
{
    match m.types.as_slice().get(index as usize) {
        Some(ty) => ty.results.as_slice(),
        None => &[],
    }
}

/// Whether these are replies to a function of the type with this index.
fn replies_fit(m: &Module, imported: usize, replies: &[Reply], index: u32) -> bool
    requires { ImportsFuncs m.now imported }
    ensures { result ≡ replies_fit m.now replies.now index }
{
    let results = results_of(m, index);
    replies
        .iter()
        .all(|reply| reply_fits(m, imported, results, reply))
}

/// Whether there is one list of replies for each imported function, which fits it.
fn all_replies_fit(m: &Module, imported: usize, replies: &[Items<Reply>]) -> bool
    requires { ImportsFuncs m.now imported }
    ensures { result ≡ pairs (replies_fit m.now) replies.now (filter_map (λ i. func_import i.desc) m.now.imports) }
{
    replies.len() == imported && each_replies_fit(m, imported, replies)
}

/// Whether each list of replies fits the imported function at its place.
fn each_replies_fit(m: &Module, imported: usize, replies: &[Items<Reply>]) -> bool
    requires { ImportsFuncs m.now imported }
    ensures { result ≡ list_all (λ p. replies_fit m.now p.0 p.1)
        (zip replies.now (filter_map (λ i. func_import i.desc) m.now.imports)) }
{
    let imports = m.imports.as_slice();
    replies
        .iter()
        .zip(imports.iter().filter_map(|import| func_import(import.desc)))
        .all(|(replies, index)| replies_fit(m, imported, replies.as_slice(), index))
}
