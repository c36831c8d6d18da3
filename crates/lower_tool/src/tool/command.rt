ghost use Rattle.std.specs.Prelude.{◌≡◌, ℕ, ◌<◌, ◌^◌, nat_le, get_or, IfSome, MatchOption, option_map};
ghost use Rattle.std.specs.Fmt.{decimal};
ghost use Rattle.lower_tool.specs.Commands.{command_of};
ghost use Rattle.lower_tool.specs.Words.{IsCommand, IsRoom, Say, captures_of, input_of, script_of};

use num_core::lists::Text;
use wasm_frame::sections::Version;

/// A command with what its words give.
#[derive(Clone, Copy)]
pub enum Command<'a> {
    /// `lower IN OUT` or `lower IN OUT N`: OUT becomes the lowered module of IN, with room for N captured exceptions.
    Lower(&'a str, &'a str, Option<u32>),
    /// `check1 IN` or `check3 IN`: whether IN is a valid module of 1.0 or of 3.0.
    Check(Version, &'a str),
    /// `run1 IN SCRIPT TURNS` or `run3 IN SCRIPT TURNS`: the events of the module IN of 1.0 or of 3.0 under SCRIPT within so
    /// many turns.
    Run(Version, &'a str, &'a str, u64),
}

impl<'a> Command<'a> {
    /// The name of the file of the module that it reads.
    pub fn input(self) -> &'a str
        ensures { result.now ≡ input_of (command_of self.entry) }
    {
        match self {
            Command::Lower(input, _, _) | Command::Check(_, input) | Command::Run(_, input, _, _) =>
                input,
        }
    }

    /// The name of the file of the script that it reads, if it reads one.
    pub fn script(self) -> Option<&'a str>
        ensures { option_map (λ script. script.now) result ≡ script_of (command_of self.entry) }
    {
        match self {
            Command::Run(_, _, script, _) => Some(script),
            Command::Lower(_, _, _) | Command::Check(_, _) => None,
        }
    }
}

/// For how many captured exceptions there is room, by what the words say of it.
pub fn captures_of(room: Option<u32>) -> u32
    requires { IfSome room IsRoom }
    ensures captures { result ≡ captures_of room }
    ensures room { IsRoom result }
{
    match room {
        Some(captures) => captures,
        None => 4096,
    }
}

/// The command that the words are, if they are one.
pub fn parse(words: &[Text]) -> Option<Command<'_>>
    ensures { MatchOption result (¬ IsCommand words.now) (λ command. Say words.now (command_of command)) }
{
    match words {
        [word, input, output] if word.as_str() == "lower" => {
            Some(Command::Lower(input.as_str(), output.as_str(), None))
        }
        [word, input, output, room] if word.as_str() == "lower" => Some(Command::Lower(
            input.as_str(),
            output.as_str(),
            Some(room_of(room.as_str())?),
        )),
        [word, input] if word.as_str() == "check1" => {
            Some(Command::Check(Version::One, input.as_str()))
        }
        [word, input] if word.as_str() == "check3" => {
            Some(Command::Check(Version::Three, input.as_str()))
        }
        [word, input, script, turns] if word.as_str() == "run1" => Some(Command::Run(
            Version::One,
            input.as_str(),
            script.as_str(),
            turns_of(turns.as_str())?,
        )),
        [word, input, script, turns] if word.as_str() == "run3" => Some(Command::Run(
            Version::Three,
            input.as_str(),
            script.as_str(),
            turns_of(turns.as_str())?,
        )),
        _ => None,
    }
}

/// The number below 2^64 that is written so, in decimal and without a zero in front.
fn turns_of(text: &str) -> Option<u64>
    ensures { MatchOption result ((turns : ℕ) → turns < 2 ^ 64 → text.now ≡ decimal turns → ⊥) (λ turns. (turns < 2 ^ 64) × (text.now ≡ decimal turns)) }
{
    if text == "0" {
        return Some(0);
    }
    if begins_low(text.as_bytes()) {
        return None;
    }
    text.parse().ok()
}

/// The number of captures for which there may be room that is written so.
#[tactic(auto, using(crate::proofs::Rooms::small_room, crate::proofs::Rooms::large_room))]
fn room_of(text: &str) -> Option<u32>
    ensures { MatchOption result ((room : ℕ) → IsRoom room → text.now ≡ decimal room → ⊥) (λ room. IsRoom room × (text.now ≡ decimal room)) }
{
    let room = turns_of(text)?;
    if room < 1 {
        return None;
    }
    if room > 16_384 {
        return None;
    }
    Some(room as u32)
}

/// Whether a text is empty, or its first byte is that of a zero or one below it, as a sign is.
fn begins_low(text: &[u8]) -> bool
    ensures { result ≡ nat_le (get_or text.now 0 0) 48 }
{
    text.is_empty() || text[0] <= b'0'
}
