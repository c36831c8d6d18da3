// What holds of the verdict and of runs themselves, whatever is read.

ghost use Rattle.std.specs.Prelude.{◌≡◌, ℕ, List};
ghost use Rattle.lower_tool.specs.CommandVerdict.{IsFine, IsRefusal};
ghost use Rattle.lower_tool.specs.Runs.{Runs};
ghost use Rattle.lower_tool.specs.Words.{Command};
ghost use Rattle.host_kit.specs.Trace.{events};
ghost use Rattle.host_kit.specs.declared.event.Event.{Event};
ghost use Rattle.wasm_frame.specs.declared.sections.Version.{Version};

/// What a command reads has one verdict: it is refused with one text at most, and with none where it is fine.
pub fn one_verdict()
    ensures one_text { (command : Command) (bytes script text other : List ℕ) → IsRefusal command bytes script text → IsRefusal command bytes script other → text ≡ other }
    ensures not_fine { (command : Command) (bytes script text : List ℕ) → IsRefusal command bytes script text → ¬ (IsFine command bytes script) }
{}

/// A module runs in one way under a script: within a number of turns it shows one list of events.
pub fn one_run()
    ensures { (version : Version) (bytes text : List ℕ) (turns : ℕ) (shown other : List Event) → Runs version bytes text (λ marks. shown ≡ events (marks turns)) → Runs version bytes text (λ marks. other ≡ events (marks turns)) → shown ≡ other }
{}
