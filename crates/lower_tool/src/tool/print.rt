ghost use Rattle.std.specs.Prelude.{◌≡◌, ◌≤◌, OnOk, OnErr};
ghost use Rattle.std.specs.Io.KnownBytes.{Appends};
ghost use Rattle.tool_files.specs.Causes.{HasCause};
ghost use Rattle.lower_tool.specs.Products.{text_of};
ghost use Rattle.lower_tool.specs.Runs.{running_line};
ghost use Rattle.lower_tool.specs.Statuses.{Prints, AppendsFront};

use crate::running::Shown;
use crate::sink::{Sink, SinkFault};

/// Prints a text. A fault of the sink cuts it short, and is passed over.
pub fn print<S: Sink>(text: &[u8], out: &mut S)
    ensures prints { Prints (S.written out.old) (S.written out.new) (S.faults out.old) (S.faults out.new) text.now }
    ensures later { S.faults out.old ≤ S.faults out.new }
{
    let _ = print_all(text, out);
}

/// Prints what is shown of a run, until a fault of the sink cuts it short.
pub fn print_run<S: Sink>(shown: &Shown, out: &mut S) -> Result<(), SinkFault>
    ensures cause { HasCause (S.faults out.old) (S.faults out.new) result }
    ensures whole { OnOk result (Appends (S.written out.old) (S.written out.new) (text_of shown.now)) }
    ensures cut { OnErr result (AppendsFront (S.written out.old) (S.written out.new) (text_of shown.now)) }
{
    print_all(shown.events.as_str().as_bytes(), out)?;
    print_all(last_line(shown.goes_on).as_bytes(), out)
}

/// The line behind the events of a run, if one stands there.
fn last_line(goes_on: bool) -> &'static str
    ensures { result.now ≡ running_line goes_on }
{
    if goes_on { "running\n" } else { "" }
}

/// Prints a text, until a fault of the sink cuts it short.
pub fn print_all<S: Sink>(text: &[u8], out: &mut S) -> Result<(), SinkFault>
    ensures cause { HasCause (S.faults out.old) (S.faults out.new) result }
    ensures whole { OnOk result (Appends (S.written out.old) (S.written out.new) text.now) }
    ensures cut { OnErr result (AppendsFront (S.written out.old) (S.written out.new) text.now) }
{
    let mut done = 0;
    while done < text.len() {
        done += out.give(&text[done..])?;
    }
    Ok(())
}
