// With how many pages a lowered module begins. A sum stops at the greatest number of 64 bits, far past what a memory has.

ghost use Rattle.std.specs.Prelude.{◌≡◌, ◌+◌, ◌*◌, ℕ, length, nat_lt};
ghost use Rattle.std.specs.List.{sum_by};
ghost use Rattle.wasm_ast.specs.Spaces.{func_count, table_count, memory_count};
ghost use Rattle.wasm_ast.specs.Region.{capped, moves_tables, needs_region, pages_for_bytes, pages_for_entries, table_pages, import_pages, least_pages, region_bytes, moved_count, has_too_many_pages};

use crate::module::{Element, Import, ImportDesc, Limits, Module, Segment, Table};
use crate::spaces::{imported_func_count, imported_memories, imported_tables};

/// Whether the memories and the moved tables, with what the region has beside them, begin with more pages than a
/// memory of 1.0 has, where it is known whether tables are moved and whether the module needs a region.
pub fn has_too_many_pages(m: &Module, moved: bool, region: bool) -> bool
    requires moved { moved ≡ moves_tables m.now }
    requires region { region ≡ needs_region m.now }
    ensures { result ≡ has_too_many_pages m.now }
{
    let least = least_pages(m, moved);
    if region {
        let blocks = four_times(block_count(m, moved));
        exceeds(blocks, region_bytes(m), least)
    } else {
        least > 65536
    }
}

/// Whether the pages of these blocks, one page, the pages of the bytes and these least pages are more than 65,536.
fn exceeds(blocks: u64, bytes: u64, least: u64) -> bool
    ensures { (a b l : ℕ) → blocks ≡ capped a → bytes ≡ capped b → least ≡ capped l → result ≡ nat_lt 65536 (((a + 1) + pages_for_bytes b) + l) }
{
    capped_sum(capped_sum(blocks, pages_for_bytes(bytes)), least) >= 65536
}

/// The sum, or the greatest number of 64 bits.
fn capped_sum(a: u64, b: u64) -> u64
    ensures { result ≡ capped (a + b) }
{
    a.saturating_add(b)
}

fn four_times(n: u64) -> u64
    ensures { result ≡ capped (4 * n) }
{
    capped_sum(capped_sum(n, n), capped_sum(n, n))
}

/// The pages of 65,536 bytes for so many bytes.
fn pages_for_bytes(bytes: u64) -> u64
    ensures { result ≡ pages_for_bytes bytes }
{
    bytes / 65536 + if bytes % 65536 == 0 { 0 } else { 1 }
}

/// The pages for so many entries of 4 bytes.
fn pages_for_entries(entries: u64) -> u64
    ensures { result ≡ pages_for_entries entries }
{
    entries / 16384 + if entries % 16384 == 0 { 0 } else { 1 }
}

/// How many memories and moved tables there are.
fn block_count(m: &Module, moved: bool) -> u64
    requires { moved ≡ moves_tables m.now }
    ensures { result ≡ capped (memory_count m.now + moved_count m.now) }
{
    let memories = capped_sum(imported_memories(m) as u64, m.memories.len() as u64);
    let tables = if moved {
        capped_sum(imported_tables(m) as u64, m.tables.len() as u64)
    } else {
        0
    };
    capped_sum(memories, tables)
}

/// The bytes that the region has for functions and segments.
fn region_bytes(m: &Module) -> u64
    ensures { result ≡ capped (region_bytes m.now) }
{
    let functions = capped_sum(imported_func_count(m) as u64, m.funcs.len() as u64);
    let entries = entry_count(m.elems.as_slice());
    let segments = capped_sum(byte_count(m.datas.as_slice()), four_times(entries));
    capped_sum(four_times(functions), segments)
}

/// The bytes of all data segments.
fn byte_count(segments: &[Segment]) -> u64
    ensures { result ≡ capped (sum_by (λ s. length s.bytes) segments.now) }
{
    let mut count = 0;
    for segment in segments {
        count = capped_sum(count, segment.bytes.as_slice().len() as u64);
    }
    count
}

/// The entries of all element segments.
fn entry_count(elements: &[Element]) -> u64
    ensures { result ≡ capped (sum_by (λ e. length e.items) elements.now) }
{
    let mut count = 0;
    for element in elements {
        count = capped_sum(count, element.items.len() as u64);
    }
    count
}

/// The least pages of all memories and of the tables that are moved.
fn least_pages(m: &Module, moved: bool) -> u64
    requires { moved ≡ moves_tables m.now }
    ensures { result ≡ capped (least_pages m.now) }
{
    let imported = imported_pages(m.imports.as_slice(), moved);
    let tables = tables_pages(m.tables.as_slice(), moved);
    capped_sum(
        imported,
        capped_sum(memory_pages(m.memories.as_slice()), tables),
    )
}

/// The least pages of imported memories and of imported tables that are moved.
fn imported_pages(imports: &[Import], moved: bool) -> u64
    ensures { result ≡ capped (sum_by (λ i. import_pages moved i.desc) imports.now) }
{
    let mut pages = 0;
    for import in imports {
        pages = capped_sum(pages, import_pages(import.desc, moved));
    }
    pages
}

fn import_pages(desc: ImportDesc, moved: bool) -> u64
    ensures { result ≡ import_pages moved desc }
{
    match desc {
        ImportDesc::Memory(limits) => limits.min,
        ImportDesc::Table(_, limits) => table_pages(limits, moved),
        _ => 0,
    }
}

/// The least pages of memories of the module.
fn memory_pages(memories: &[Limits]) -> u64
    ensures { result ≡ capped (sum_by (λ l. l.min) memories.now) }
{
    let mut pages = 0;
    for limits in memories {
        pages = capped_sum(pages, limits.min);
    }
    pages
}

/// The least pages of tables of the module, if they are moved.
fn tables_pages(tables: &[Table], moved: bool) -> u64
    ensures { result ≡ capped (sum_by (λ t. table_pages moved t.limits) tables.now) }
{
    let mut pages = 0;
    for table in tables {
        pages = capped_sum(pages, table_pages(table.limits, moved));
    }
    pages
}

fn table_pages(limits: Limits, moved: bool) -> u64
    ensures { result ≡ table_pages moved limits }
{
    if moved {
        pages_for_entries(limits.min)
    } else {
        0
    }
}
