ghost use Rattle.std.specs.Prelude.{◌≡◌, ◌≤◌, length, Some};
ghost use Rattle.module_reading.specs.Texts.{word_of};

use std::fmt;

/// What a file may have only so many of, in the order in which the limits are tested.
#[derive(Clone, Copy, Debug, PartialEq, Eq)]
pub enum Kind {
    /// Function types.
    Types,
    /// Imports.
    Imports,
    /// Functions, the imported ones counted.
    Functions,
    /// Tables.
    Tables,
    /// Memories.
    Memories,
    /// Tags.
    Tags,
    /// Globals.
    Globals,
    /// Exports.
    Exports,
    /// Element segments.
    Elements,
    /// Data segments.
    Segments,
    /// Parameters of a function type.
    Parameters,
    /// Results of a function type.
    Results,
    /// Locals of a function, the parameters not counted.
    Locals,
    /// Words that carry the values of a tag's exceptions.
    Payload,
    /// Instructions that hold code in one another.
    Nesting,
}

impl Kind {
    /// The word for it.
    pub fn word(self) -> &'static str
        ensures word { result.now ≡ word_of self }
        ensures short { length result.now ≤ 10 }
    {
        match self {
            Kind::Types => "types",
            Kind::Imports => "imports",
            Kind::Functions => "functions",
            Kind::Tables => "tables",
            Kind::Memories => "memories",
            Kind::Tags => "tags",
            Kind::Globals => "globals",
            Kind::Exports => "exports",
            Kind::Elements => "elements",
            Kind::Segments => "segments",
            Kind::Parameters => "parameters",
            Kind::Results => "results",
            Kind::Locals => "locals",
            Kind::Payload => "payload",
            Kind::Nesting => "nesting",
        }
    }
}

impl fmt::Display for Kind {
    ghost output = { λ kind. Some (word_of kind) };

    fn fmt<W: fmt::Write>(&self, f: &mut fmt::Formatter<W>) -> fmt::Result {
        let word = self.word();
        write!(f, "{word}")
    }
}
