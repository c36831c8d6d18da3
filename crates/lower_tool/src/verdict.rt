// The verdict on a file.

ghost use Rattle.std.specs.Prelude.{◌≡◌, Some};
ghost use Rattle.lower_tool.specs.Verdict.{text_of};
ghost use Rattle.lower_tool.specs.Stops.{of_reading, of_script, of_typing, of_typing1};
ghost use Rattle.lower_tool.specs.declared.verdict.NotFine.TheVariants.{Memory};

use host_kit::TextFault;
use module_reading::ReadFault;
use pass_stack::Outside;
use std::alloc::AllocError;
use std::fmt;
use thiserror::Error;
use valid_mod::Invalid;

/// The first step of the verdict that refuses a file, or a script.
#[derive(Debug, Drop, Error)]
pub enum Refusal {
    /// The file has more than 67,108,864 bytes.
    TooLarge,
    /// The file cannot be read, for this fault. Want of memory is no such fault.
    Unreadable(ReadFault),
    /// Floats occur in the module of 1.0.
    Floats,
    /// The module of 3.0 lies outside the profile, by this entry of its list; the last entries are those of what is not
    /// built, for a module that is to be lowered.
    Outside(Outside),
    /// Of the parts of the module, the first that is not typed: the id of its section, and its place in that section.
    Part(u8, u32),
    /// All parts are typed, and the body at this place in the code section is the first that is not.
    Body(u32),
    /// The module is fine, and the text of the script is none, for this fault. Want of memory is no such fault.
    Script(TextFault),
    /// The module is fine, and the script does not fit it.
    DoesNotFit,
}

impl fmt::Display for Refusal {
    ghost output = { λ refusal. Some (text_of refusal) };

    fn fmt<W: fmt::Write>(&self, f: &mut fmt::Formatter<W>) -> fmt::Result {
        match self {
            Refusal::TooLarge => write!(f, "too large"),
            Refusal::Unreadable(fault) => write!(f, "{fault}"),
            Refusal::Floats => write!(f, "outside: floats"),
            Refusal::Outside(entry) => write!(f, "outside: {entry}"),
            Refusal::Part(section, index) => write!(f, "invalid: part {section} {index}"),
            Refusal::Body(place) => write!(f, "invalid: body {place}"),
            Refusal::Script(fault) => write!(f, "{fault}"),
            Refusal::DoesNotFit => write!(f, "script: does not fit"),
        }
    }
}

/// Why bytes are not what a command needs.
#[derive(Debug, Drop, Error)]
pub enum NotFine {
    /// The verdict on them is not fine.
    #[error("refused: {0}")]
    Refused(Refusal),
    /// No memory was found.
    #[error("out of memory")]
    Memory(AllocError),
}

impl From<AllocError> for NotFine {
    ghost from_gives = { λ error fault. fault ≡ Memory error };

    fn from(error: AllocError) -> NotFine {
        NotFine::Memory(error)
    }
}

impl From<ReadFault> for NotFine {
    ghost from_gives = { λ error fault. fault ≡ of_reading error };

    fn from(error: ReadFault) -> NotFine {
        match error {
            ReadFault::Memory(error) => NotFine::Memory(error),
            fault => NotFine::Refused(Refusal::Unreadable(fault)),
        }
    }
}

impl From<valid_core1::Invalid> for NotFine {
    ghost from_gives = { λ error fault. fault ≡ of_typing1 error };

    fn from(error: valid_core1::Invalid) -> NotFine {
        match error {
            valid_core1::Invalid::Part { section, index } => {
                NotFine::Refused(Refusal::Part(section, index))
            }
            valid_core1::Invalid::Body(place) => NotFine::Refused(Refusal::Body(place)),
            valid_core1::Invalid::Memory(error) => NotFine::Memory(error),
        }
    }
}

impl From<Invalid> for NotFine {
    ghost from_gives = { λ error fault. fault ≡ of_typing error };

    fn from(error: Invalid) -> NotFine {
        match error {
            Invalid::Part { section, index } => NotFine::Refused(Refusal::Part(section, index)),
            Invalid::Body(place) => NotFine::Refused(Refusal::Body(place)),
            Invalid::Memory(error) => NotFine::Memory(error),
        }
    }
}

impl From<TextFault> for NotFine {
    ghost from_gives = { λ error fault. fault ≡ of_script error };

    fn from(error: TextFault) -> NotFine {
        match error {
            TextFault::Memory(error) => NotFine::Memory(error),
            fault => NotFine::Refused(Refusal::Script(fault)),
        }
    }
}
