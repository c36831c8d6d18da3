// The commands: their words, what they read and write, and how they end.

ghost use Rattle.std.specs.Prelude.{◌≡◌, ◌≢◌, ℕ, ◌≤◌, List, ◌++◌, ◌⊎◌, ◌↔◌, IsTrue, IfSome, codes};
ghost use Rattle.std.specs.Io.KnownBytes.{Appends};
ghost use Rattle.tool_files.specs.Causes.{Rose};
ghost use Rattle.tool_files.specs.Held.{Told, WhereTold};
ghost use Rattle.core1_ast.specs.Typing.{Typed1};
ghost use Rattle.core1_ast.specs.declared.module.parts.Module1.{Module1};
ghost use Rattle.core1_bytes.specs.Spells.{Spells1};
ghost use Rattle.headline.specs.Headline.{Same};
ghost use Rattle.headline.specs.MappedInterface.{SameInterface};
ghost use Rattle.host_kit.specs.Trace.{events};
ghost use Rattle.read_new.specs.Spells.{Spells};
ghost use Rattle.wasm_ast.specs.declared.module.parts.Module.{Module};
ghost use Rattle.lower_tool.specs.CommandVerdict.{IsFine, IsRefusal};
ghost use Rattle.lower_tool.specs.Inputs.{CanBegin, ToldInputs, WhereInputs, TakesInput};
ghost use Rattle.lower_tool.specs.Runs.{Runs, run_text};
ghost use Rattle.lower_tool.specs.Statuses.{Prints, AppendsFront, Lowered, CutShort, line};
ghost use Rattle.lower_tool.specs.Stops.{line_of, status_of};
ghost use Rattle.lower_tool.specs.Verdict.{IsFineToLower, IsValid};
ghost use Rattle.lower_tool.specs.Words.{IsCommand, ByWords, IfWords, IfLower, IfCheck, IfRun, IfPrinting};

mod command;
mod input;
mod output;
mod prepare;
mod print;
mod product;
mod status;
mod stop;

use crate::files::Files;
use crate::sink::Sink;
use command::parse;
use num_core::lists::Texts;
use prepare::prepare;
use print::print;
use product::deliver;
use std::alloc::Global;
pub use stop::Stop;

/// Runs the command that the words are, and gives its status.
#[tactic(auto, using(crate::proofs::Rooms::has_room))]
pub fn tool<F: Files, S: Sink>(alloc: Global, words: &Texts, files: &mut F, out: &mut S) -> u8
    requires { IfWords words.now (λ command. CanBegin (F.can_begin files.old) command) }

    ensures statuses { result ≤ 5 }
    ensures usage { (result ≡ 2) ↔ (¬ IsCommand words.now) }

    // The headline: the input is fine, and the output spells a module that the rules of 1.0 type, that has the input's
    // imports and exports and no others, and that shows what the input's module shows, for every fitting script and
    // number of turns, in at most 4 d + 16 live frames.
    ensures lowered { result ≡ 0 → IfLower words.now (λ input output captures. Lowered (F.holds files.old) (F.holds files.new)
        (λ bytes written. (m : Module) × Spells bytes m × ((m1 : Module1) × Spells1 written m1 × Typed1 m1 × SameInterface m m1 × Same 4 16 m m1 captures)) input output) }
    ensures valid { result ≡ 0 → IfCheck words.now (λ version input. WhereTold (F.holds files.old) input (IsValid version)) }
    // The module is valid, the script fits it, and what is printed is the text of the events that the meaning gives.
    ensures runs { result ≡ 0 → IfRun words.now (λ version input script turns. WhereTold (F.holds files.old) input (λ bytes. WhereTold (F.holds files.old) script (λ text.
        Runs version bytes text (λ marks. Appends (S.written out.old) (S.written out.new) (run_text (events (marks turns))))))) }
    ensures refused { result ≡ 1 → ByWords words.now (λ command. (text : List ℕ) × WhereInputs (F.holds files.old) command (λ bytes script. IsRefusal command bytes script text)
        × Prints (S.written out.old) (S.written out.new) (S.faults out.old) (S.faults out.new) (line (codes "refused: " ++ text))) }
    ensures refuses { IfWords words.now (λ command. ToldInputs (F.holds files.old) command (λ bytes script. ¬ IsFine command bytes script)
        → ¬ Rose (F.read_faults files.old) (F.read_faults files.new) → (result ≡ 1) ⊎ (result ≡ 5)) }
    ensures read { result ≡ 3 → Rose (F.read_faults files.old) (F.read_faults files.new) }

    ensures written { result ≡ 4 → IfLower words.now (λ input output captures. Rose (F.write_faults files.old) (F.write_faults files.new)) }
    ensures cut { result ≡ 4 → IfLower words.now (CutShort (F.holds files.old) (F.holds files.new)) }
    ensures printed { result ≡ 4 → IfPrinting words.now (λ command. Rose (S.faults out.old) (S.faults out.new)) }
    ensures cut_line { result ≡ 4 → IfCheck words.now (λ version input. AppendsFront (S.written out.old) (S.written out.new) (line (codes "ok"))) }
    ensures cut_run { result ≡ 4 → IfRun words.now (λ version input script turns. WhereTold (F.holds files.old) input (λ bytes. WhereTold (F.holds files.old) script (λ text.
        Runs version bytes text (λ marks. AppendsFront (S.written out.old) (S.written out.new) (run_text (events (marks turns))))))) }

    ensures complete { IfLower words.now (λ input output captures. Told (F.holds files.old) input IsFineToLower
        → ¬ Rose (F.read_faults files.old) (F.read_faults files.new) → ¬ Rose (F.write_faults files.old) (F.write_faults files.new) → (result ≡ 0) ⊎ (result ≡ 5)) }
    ensures complete_printing { IfPrinting words.now (λ command. ToldInputs (F.holds files.old) command (IsFine command)
        → ¬ Rose (F.read_faults files.old) (F.read_faults files.new) → ¬ Rose (S.faults out.old) (S.faults out.new) → (result ≡ 0) ⊎ (result ≡ 5)) }

    ensures silent { (result ≡ 0) ⊎ (result ≡ 4) → IfLower words.now (λ input output captures. out.new ≡ out.old) }
    ensures prints_ok { result ≡ 0 → IfCheck words.now (λ version input. Appends (S.written out.old) (S.written out.new) (line (codes "ok"))) }
    ensures prints_usage { result ≡ 2 → Prints (S.written out.old) (S.written out.new) (S.faults out.old) (S.faults out.new) (line (codes "usage")) }
    ensures prints_read { result ≡ 3 → Prints (S.written out.old) (S.written out.new) (S.faults out.old) (S.faults out.new) (line (codes "cannot read")) }
    ensures prints_memory { result ≡ 5 → Prints (S.written out.old) (S.written out.new) (S.faults out.old) (S.faults out.new) (line (codes "out of memory")) }

    ensures untouched { result ≡ 2 → files.new ≡ files.old }
    ensures held { result ≢ 0 → result ≢ 4 → F.holds files.new ≡ F.holds files.old }
    ensures created { result ≢ 0 → result ≢ 4 → F.created files.new ≡ F.created files.old }
    ensures writes { result ≢ 0 → result ≢ 4 → F.write_faults files.new ≡ F.write_faults files.old }
    ensures reads_only { IfPrinting words.now (λ command. (F.holds files.new ≡ F.holds files.old) × (F.created files.new ≡ F.created files.old)
        × (F.write_faults files.new ≡ F.write_faults files.old)) }
    ensures taken { result ≢ 0 → result ≢ 4 → IsTrue (F.is_reading files.new)
        → IfWords words.now (λ command. IfSome (F.holds files.old) (λ held. TakesInput held command (F.left files.new))) }

    ensures reads_later { F.read_faults files.old ≤ F.read_faults files.new }
    ensures writes_later { F.write_faults files.old ≤ F.write_faults files.new }
    ensures sink_later { S.faults out.old ≤ S.faults out.new }
    ensures still { (other : List ℕ) → F.can_begin files.old other → F.can_begin files.new other }
{
    let Some(command) = parse(words.as_slice()) else {
        return usage(out);
    };
    match prepare(alloc, command, files) {
        Ok(product) => deliver(&product, files, out),
        Err(stop) => report(stop, out),
    }
}
/// Prints that the words are no command, and gives the status for it.
pub fn usage<S: Sink>(out: &mut S) -> u8
    ensures status { result ≡ 2 }
    ensures prints { Prints (S.written out.old) (S.written out.new) (S.faults out.old) (S.faults out.new) (line (codes "usage")) }
    ensures later { S.faults out.old ≤ S.faults out.new }
{
    print(b"usage\n", out);
    status::USAGE
}

/// Prints why a command stopped, and gives the status for it. A text without room in a line is want of memory.
pub fn report<S: Sink>(stop: Stop, out: &mut S) -> u8
    ensures status { (result ≡ status_of stop) ⊎ (result ≡ 5) }
    ensures prints { result ≡ status_of stop → Prints (S.written out.old) (S.written out.new) (S.faults out.old) (S.faults out.new) (line_of stop) }
    ensures memory { result ≡ 5 → Prints (S.written out.old) (S.written out.new) (S.faults out.old) (S.faults out.new) (line (codes "out of memory")) }
    ensures later { S.faults out.old ≤ S.faults out.new }
{
    match stop.line() {
        Ok(line) => {
            print(line.as_str().as_bytes(), out);
            stop.status()
        }
        Err(_) => {
            print(b"out of memory\n", out);
            status::OUT_OF_MEMORY
        }
    }
}
