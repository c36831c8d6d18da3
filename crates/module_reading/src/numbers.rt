// How much of each kind a file has, and which limit it passes first.

ghost use Rattle.std.specs.Prelude.{◌≡◌, ◌↔◌, IsTrue, MatchOption};
ghost use Rattle.module_reading.specs.Limits.{IsWithin, front_kinds, last_kinds};
ghost use Rattle.module_reading.specs.Numbers.{number_in, AllWithin, IsFirstPassed};

use crate::format::ModuleFormat;
use crate::kind::Kind;

/// How much of each kind a file has.
#[derive(Clone, Copy)]
pub struct Numbers {
    /// Function types.
    pub types: u64,
    /// Imports.
    pub imports: u64,
    /// Functions, the imported ones counted.
    pub functions: u64,
    /// Tables.
    pub tables: u64,
    /// Memories.
    pub memories: u64,
    /// Tags.
    pub tags: u64,
    /// Globals.
    pub globals: u64,
    /// Exports.
    pub exports: u64,
    /// Element segments.
    pub elements: u64,
    /// Data segments.
    pub segments: u64,
    /// The most parameters of a function type.
    pub parameters: u64,
    /// The most results of a function type.
    pub results: u64,
    /// The most locals of a function.
    pub locals: u64,
    /// The most words of a tag's payload.
    pub payload: u64,
    /// The greatest number of instructions that hold code in one another.
    pub nesting: u64,
}

/// The kinds whose numbers are known before anything of the module is built, in the order of their tests.
pub static FRONT_KINDS: [Kind; 13] = [
    Kind::Types,
    Kind::Imports,
    Kind::Functions,
    Kind::Tables,
    Kind::Memories,
    Kind::Tags,
    Kind::Globals,
    Kind::Exports,
    Kind::Elements,
    Kind::Segments,
    Kind::Parameters,
    Kind::Results,
    Kind::Locals,
];

/// And those behind them.
pub static LAST_KINDS: [Kind; 2] = [Kind::Payload, Kind::Nesting];

fn number_in(numbers: &Numbers, kind: Kind) -> u64
    ensures { result ≡ number_in numbers.now kind }
{
    match kind {
        Kind::Types => numbers.types,
        Kind::Imports => numbers.imports,
        Kind::Functions => numbers.functions,
        Kind::Tables => numbers.tables,
        Kind::Memories => numbers.memories,
        Kind::Tags => numbers.tags,
        Kind::Globals => numbers.globals,
        Kind::Exports => numbers.exports,
        Kind::Elements => numbers.elements,
        Kind::Segments => numbers.segments,
        Kind::Parameters => numbers.parameters,
        Kind::Results => numbers.results,
        Kind::Locals => numbers.locals,
        Kind::Payload => numbers.payload,
        Kind::Nesting => numbers.nesting,
    }
}

/// Whether a number of this kind does not pass its limit.
fn is_within<F: ModuleFormat>(kind: Kind, number: u64) -> bool
    ensures { IsTrue result ↔ IsWithin F.format kind number }
{
    match F::limit(kind) {
        Some(most) => number <= most,
        None => true,
    }
}

/// The first of these kinds whose number passes its limit.
pub fn first_passed<F: ModuleFormat>(kinds: &[Kind], numbers: &Numbers) -> Option<Kind>
    ensures { MatchOption result (AllWithin F.format kinds.now numbers.now) (IsFirstPassed F.format kinds.now numbers.now) }
{
    for kind in kinds {
        if !is_within::<F>(*kind, number_in(numbers, *kind)) {
            return Some(*kind);
        }
    }
    None
}
