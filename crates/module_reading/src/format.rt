ghost use Rattle.std.specs.Prelude.{◌≡◌, ℕ, ◌↔◌, List, [], ◌∷◌, Option, IsTrue, IfOk, MatchOption, option_map};
ghost use Rattle.grammar_kit.specs.Gives.{Gives};
ghost use Rattle.grammar_kit.specs.Sequences.{whole};
ghost use Rattle.module_reading.specs.declared.kind.Kind.TheVariants.{Nesting, Payload};
ghost use Rattle.module_reading.specs.Files.{payloads};
ghost use Rattle.module_reading.specs.Format.{Format};
ghost use Rattle.module_reading.specs.Limits.{front_kinds};
ghost use Rattle.module_reading.specs.Means.{Means, Laws};
ghost use Rattle.module_reading.specs.Numbers.{AreOf};
ghost use Rattle.module_reading.specs.Sizes.{AreSizes};

use crate::bodies::BodySizes;
use crate::file::File;
use crate::kind::Kind;
use crate::numbers::Numbers;
use crate::sizes::{FileSizes, Sizes};
use grammar_kit::FormError;
use std::alloc::{AllocError, Global};
use wasm_frame::sections::Version;

/// A version of the binary format, and how its files are read.
pub trait ModuleFormat {
    /// What a file spells.
    type Module: Drop;

    /// What is built of a module before its last limits are tested.
    type Declared: Drop;

    /// Which bytes spell a module, and how large it may be.
    ghost format: { Format Self.Module };

    /// By what it is read.
    ghost means: { Means format };

    /// What is built of a module before its last limits are tested.
    ghost front: { Self.Module → Self.Declared };

    /// The version.
    fn version() -> Version
        ensures { result ≡ format.version };

    /// How much of a kind a file may have. `None` where the version has no limit.
    fn limit(kind: Kind) -> Option<u64>
        ensures { result ≡ format.limit kind };

    /// How large a payload is that is in the grammar of its id, and `None` where it is not. Custom sections and the code
    /// section are not asked for.
    fn check(alloc: Global, id: u8, payload: &[u8]) -> Result<Option<Sizes>, AllocError>
        ensures { IfOk result (λ sizes. MatchOption sizes (¬ (format.InGrammar id payload.now)) (λ s. format.InGrammar id payload.now × means.HasSizes id payload.now s)) };

    /// How large the body is that all of the bytes spell. Neither locals nor instructions are kept.
    fn measure_body(alloc: Global, text: &[u8]) -> Result<BodySizes, FormError>
        ensures { Gives (λ s. (s.locals, s.nesting, s.names_data)) result (option_map means.body_sizes (whole (format.body.read text.now))) };

    /// Whether the counts of the module agree.
    fn agree(sizes: &FileSizes) -> bool
        ensures { (at : ℕ → Option (List ℕ)) → AreSizes format means at sizes.now → IsTrue result ↔ format.Agrees (means.made at) };

    /// How much of each kind there is, the payload of tags left at 0.
    fn numbers(sizes: &FileSizes) -> Numbers
        requires { (at : ℕ → Option (List ℕ)) × AreSizes format means at sizes.now }
        ensures front { (at : ℕ → Option (List ℕ)) → AreSizes format means at sizes.now → AreOf format front_kinds result (means.made at) }
        ensures nesting { (at : ℕ → Option (List ℕ)) → AreSizes format means at sizes.now → AreOf format (Nesting ∷ []) result (means.made at) };

    /// What is built before the last limits are tested. A payload that is not in its grammar has nothing.
    fn declare(alloc: Global, file: &File<'_>) -> Result<Self::Declared, AllocError>
        ensures { IfOk result (λ d. d ≡ front (means.made (payloads file.now))) };

    /// The most words that carry the values of a tag's exceptions.
    fn payload_words(declared: &Self::Declared) -> u64
        ensures { (m : Self.Module) → declared.now ≡ front m → result ≡ format.number Payload m };

    /// The module. A payload that is not in its grammar has nothing.
    fn build(
        alloc: Global,
        file: &File<'_>,
        declared: Self::Declared,
    ) -> Result<Self::Module, AllocError>
        requires { declared ≡ front (means.made (payloads file.now)) }
        ensures { IfOk result (λ m. m ≡ means.made (payloads file.now)) };

    /// What a version owes of its grammar and of what it is read by. Nothing is computed.
    fn laws()
        ensures { Laws format means };
}
