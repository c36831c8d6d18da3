ghost use Rattle.std.specs.Prelude.{◌≡◌, Some, IfOk, ◌∷◌, ◌++◌, []};
ghost use Rattle.std.specs.Fmt.{decimal};
ghost use Rattle.host_kit.specs.Faults.{fault_text, Below};
ghost use Rattle.host_kit.specs.declared.fault.ScriptFault.TheVariants.{Memory};

use num_core::lists::Text;
use std::alloc::{AllocError, Global};
use std::error::Error;
use std::fmt;

/// Why a tree is no script.
#[derive(Debug, Drop)]
pub enum ScriptFault {
    /// The path of the first place that is not of the form of scripts, in the order of the form; the whole has the empty
    /// path.
    Shape(Text),
    /// Memory was not found.
    Memory(AllocError),
}

impl fmt::Display for ScriptFault {
    ghost output = { λ fault. Some (fault_text fault) };

    fn fmt<W: fmt::Write>(&self, f: &mut fmt::Formatter<W>) -> fmt::Result {
        match self {
            ScriptFault::Shape(path) => {
                let path = path.as_str();
                write!(f, "script: {path}")
            }
            ScriptFault::Memory(_) => write!(f, "out of memory"),
        }
    }
}

impl Error for ScriptFault {}

impl From<AllocError> for ScriptFault {
    ghost from_gives = { λ error fault. fault ≡ Memory error };

    fn from(error: AllocError) -> ScriptFault {
        ScriptFault::Memory(error)
    }
}

impl ScriptFault {
    /// The fault of a tree that is named itself. It takes no memory.
    pub(crate) fn here(alloc: Global) -> ScriptFault
        ensures { result ≡ ScriptFault.Shape [] }
    {
        ScriptFault::Shape(Text::from_string(String::new(alloc)))
    }

    /// The fault as the tree above names it, from which this step leads to the place.
    pub(crate) fn below(self, alloc: Global, step: &str) -> ScriptFault
        ensures { Below step.now self result }
    {
        match self {
            ScriptFault::Shape(path) => shape_below(alloc, step, path),
            ScriptFault::Memory(error) => ScriptFault::Memory(error),
        }
    }

    /// The same, where the step is a place in a list.
    pub(crate) fn below_place(self, alloc: Global, place: usize) -> ScriptFault
        ensures { Below (decimal place) self result }
    {
        match place.to_string(alloc) {
            Ok(step) => self.below(alloc, step.as_str()),
            Err(error) => ScriptFault::Memory(error),
        }
    }
}

/// The fault at this path, as the tree above names it.
fn shape_below(alloc: Global, step: &str, path: Text) -> ScriptFault
    ensures { Below step.now (ScriptFault.Shape path) result }
{
    match path_below(alloc, step, path.as_str()) {
        Ok(path) => ScriptFault::Shape(path),
        Err(error) => ScriptFault::Memory(error),
    }
}

/// A step, and the path from there.
fn path_below(alloc: Global, step: &str, path: &str) -> Result<Text, AllocError>
    ensures { IfOk result (λ whole. whole ≡ 47 ∷ step.now ++ path.now) }
{
    Ok(Text::from_string(format!(in alloc; "/{step}{path}")?))
}
