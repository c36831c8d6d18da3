// Runs of a module under a script, in either version.

ghost use Rattle.std.specs.Prelude.{◌≡◌, ℕ, ◌≤◌, length, Ok, IfOk, IfErr};
ghost use Rattle.host_kit.specs.Fits.{ScriptFits};
ghost use Rattle.host_kit.specs.Fits1.{ScriptFits1};
ghost use Rattle.host_kit.specs.ScriptTexts.{Reads as ReadsScript};
ghost use Rattle.host_kit.specs.Texts.{events_text};
ghost use Rattle.host_kit.specs.Trace.{events};
ghost use Rattle.meaning_core1.specs.Runs.{trace1};
ghost use Rattle.meaning_new.specs.Runs.{trace};
ghost use Rattle.core1_bytes.specs.Spells.{one};
ghost use Rattle.read_new.specs.Spells.{three};
ghost use Rattle.module_reading.specs.Limits.{file_limit};
ghost use Rattle.module_reading.specs.Reads.{Reads};
ghost use Rattle.typed_trees.specs.Typed.{module_of};
ghost use Rattle.valid_mod.specs.Meaning.{SameRuns};
ghost use Rattle.wasm_ast.specs.Counts.{Agrees};
ghost use Rattle.wasm_frame.specs.declared.sections.Version.TheVariants as versions;
ghost use Rattle.lower_tool.specs.Products.{text_of};
ghost use Rattle.lower_tool.specs.Runs.{Runs, RunsUnder, RefusesText, RefusesUnder, RefusesToRun, run_text, goes_on};
ghost use Rattle.lower_tool.specs.Stops.{IfNotFine};
ghost use Rattle.lower_tool.specs.Verdict.{IsValid1, IsValid3, RefusesModule1, RefusesModule3};
ghost use Rattle.host_kit.specs.declared.script_text.TextFault.{TextFault};
ghost use Rattle.lower_tool.specs.declared.verdict.Refusal.TheVariants.{Script as ScriptFault};

use crate::checking::{type1, type3};
use crate::verdict::{NotFine, Refusal};
use core1_ast::module::Module1;
use core1_bytes::read1;
use host_kit::{Event, Script, fits, fits1, print, read_script};
use num_core::lists::{Bytes, Text};
use read_new::read;
use run_core1::run_core1;
use run_new::run_new;
use std::alloc::{AllocError, Global};
use typed_trees::TypedModule;
use wasm_ast::module::Module;
use wasm_frame::sections::Version;

/// What is shown of a run.
#[derive(Drop)]
pub struct Shown {
    /// Its events, a line for each.
    pub events: Text,
    /// Whether it goes on after them.
    pub goes_on: bool,
}

/// The run of the module of this version that bytes spell, under the script of a text, within so many turns. Bytes that are
/// not valid and then texts of no script that fits are refused.
pub fn run_bytes(
    alloc: Global,
    version: Version,
    bytes: Bytes,
    text: Bytes,
    turns: u64,
) -> Result<Shown, NotFine>
    requires { length bytes ≤ file_limit }
    ensures shown { IfOk result (λ shown. Runs version bytes text (λ marks. text_of shown ≡ run_text (events (marks turns)))) }
    ensures refused { IfErr result (λ fault. IfNotFine fault (λ refusal. RefusesToRun version refusal bytes text)) }
{
    match version {
        Version::One => run1_bytes(alloc, bytes, text, turns),
        Version::Three => run3_bytes(alloc, bytes, text, turns),
    }
}

fn run1_bytes(alloc: Global, bytes: Bytes, text: Bytes, turns: u64) -> Result<Shown, NotFine>
    requires { length bytes ≤ file_limit }
    ensures shown { IfOk result (λ shown. Runs versions.One bytes text (λ marks. text_of shown ≡ run_text (events (marks turns)))) }
    ensures refused { IfErr result (λ fault. IfNotFine fault (λ refusal. RefusesToRun versions.One refusal bytes text)) }
{
    let source = read1(alloc, bytes.as_slice())?;
    drop(bytes);
    run1_module(alloc, &source, text, turns)
}

fn run1_module(alloc: Global, source: &Module1, text: Bytes, turns: u64) -> Result<Shown, NotFine>
    requires { length source.now.funcs ≡ length source.now.codes }
    ensures shown { IfOk result (λ shown. RunsUnder IsValid1 ScriptFits1 trace1 text (λ marks. text_of shown ≡ run_text (events (marks turns))) source.now) }
    ensures refused { IfErr result (λ fault. IfNotFine fault (λ refusal. RefusesUnder IsValid1 RefusesModule1 ScriptFits1 text refusal source.now)) }
{
    let typed = type1(alloc, source)?;
    let script = script_of(alloc, text)?;
    if !fits1(source, &script) {
        return Err(NotFine::Refused(Refusal::DoesNotFit));
    }
    let shown = run_core1(alloc, &typed, &script, turns)?;
    Ok(show(alloc, shown.as_slice())?)
}

fn run3_bytes(alloc: Global, bytes: Bytes, text: Bytes, turns: u64) -> Result<Shown, NotFine>
    requires { length bytes ≤ file_limit }
    ensures shown { IfOk result (λ shown. Runs versions.Three bytes text (λ marks. text_of shown ≡ run_text (events (marks turns)))) }
    ensures refused { IfErr result (λ fault. IfNotFine fault (λ refusal. RefusesToRun versions.Three refusal bytes text)) }
{
    let source = read(alloc, bytes.as_slice())?;
    drop(bytes);
    run3_module(alloc, &source, text, turns)
}

fn run3_module(alloc: Global, source: &Module, text: Bytes, turns: u64) -> Result<Shown, NotFine>
    requires { Agrees source.now }
    ensures shown { IfOk result (λ shown. RunsUnder IsValid3 ScriptFits trace text (λ marks. text_of shown ≡ run_text (events (marks turns))) source.now) }
    ensures refused { IfErr result (λ fault. IfNotFine fault (λ refusal. RefusesUnder IsValid3 RefusesModule3 ScriptFits text refusal source.now)) }
{
    let typed = type3(alloc, source)?;
    run3_typed(alloc, source, &typed, text, turns)
}

fn run3_typed(
    alloc: Global,
    source: &Module,
    typed: &TypedModule,
    text: Bytes,
    turns: u64,
) -> Result<Shown, NotFine>
    requires fine { IsValid3 source.now }
    requires runs { SameRuns source.now (module_of typed.now) }
    ensures shown { IfOk result (λ shown. RunsUnder IsValid3 ScriptFits trace text (λ marks. text_of shown ≡ run_text (events (marks turns))) source.now) }
    ensures refused { IfErr result (λ fault. IfNotFine fault (λ refusal. RefusesUnder IsValid3 RefusesModule3 ScriptFits text refusal source.now)) }
{
    let script = script_of(alloc, text)?;
    if !fits(source, &script) {
        return Err(NotFine::Refused(Refusal::DoesNotFit));
    }
    let shown = run_new(alloc, typed, &script, turns)?;
    Ok(show(alloc, shown.as_slice())?)
}

/// The script of a text, which is dropped.
fn script_of(alloc: Global, text: Bytes) -> Result<Script, NotFine>
    ensures read { IfOk result (λ script. ReadsScript text (Ok script)) }
    ensures refused { IfErr result (λ fault. IfNotFine fault (λ refusal. (why : TextFault) × (refusal ≡ ScriptFault why) × RefusesText text why)) }
{
    Ok(read_script(alloc, text.as_slice())?)
}

/// What is shown of a run with these events. It fails for want of memory alone.
fn show(alloc: Global, shown: &[Event]) -> Result<Shown, AllocError>
    ensures { IfOk result (λ lines. text_of lines ≡ run_text shown.now) }
{
    let events = print(alloc, shown)?;
    Ok(Shown {
        events,
        goes_on: goes_on(shown),
    })
}

/// Whether a run goes on after these events.
fn goes_on(shown: &[Event]) -> bool
    ensures { result ≡ goes_on shown.now }
{
    !matches!(
        shown.last(),
        Some(Event::Done | Event::Failed | Event::NoReply(_) | Event::Full)
    )
}
