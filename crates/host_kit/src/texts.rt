// The texts of values and of events.
ghost use Rattle.std.specs.Prelude.{◌≡◌, Some, IfOk};
ghost use Rattle.host_kit.specs.Texts.{value_text, values_text, bytes_text, event_text, events_text};

use super::event::Event;
use super::value::Value;
use num_core::lists::Text;
use std::alloc::{AllocError, Global};
use std::fmt;

impl fmt::Display for Value {
    ghost output = { λ value. Some (value_text value) };

    fn fmt<W: fmt::Write>(&self, f: &mut fmt::Formatter<W>) -> fmt::Result {
        match self {
            Value::I32(number) => write!(f, "i32 {number}"),
            Value::I64(number) => write!(f, "i64 {number}"),
            Value::V128(low, high) => write!(f, "v128 {low} {high}"),
            Value::Func(function) => write!(f, "func {function}"),
            Value::Extern(number) => write!(f, "extern {number}"),
            Value::NullFunc => write!(f, "null func"),
            Value::NullExtern => write!(f, "null extern"),
        }
    }
}

/// Values as they are printed, with a comma and a space between each two.
#[derive(Clone, Copy)]
struct Listed<'a>(&'a [Value]);

impl fmt::Display for Listed<'_> {
    ghost output = { λ listed. Some (values_text listed.0.now) };

    fn fmt<W: fmt::Write>(&self, f: &mut fmt::Formatter<W>) -> fmt::Result {
        if let [first, rest @ ..] = self.0 {
            write!(f, "{first}")?;
            for value in rest {
                write!(f, ", {value}")?;
            }
        }
        Ok(())
    }
}

/// Bytes as they are printed, as two hexadecimal digits each.
#[derive(Clone, Copy)]
struct Hex<'a>(&'a [u8]);

impl fmt::Display for Hex<'_> {
    ghost output = { λ hex. Some (bytes_text hex.0.now) };

    fn fmt<W: fmt::Write>(&self, f: &mut fmt::Formatter<W>) -> fmt::Result {
        for &byte in self.0 {
            write!(f, "{byte:02x}")?;
        }
        Ok(())
    }
}

impl fmt::Display for Event {
    ghost output = { λ event. Some (event_text event) };

    fn fmt<W: fmt::Write>(&self, f: &mut fmt::Formatter<W>) -> fmt::Result {
        match self {
            Event::Started => write!(f, "started"),
            Event::Failed => write!(f, "failed"),
            Event::HostCall(import, arguments, globals) => {
                let arguments = Listed(arguments.as_slice());
                let globals = Listed(globals.as_slice());
                write!(f, "host {import} ({arguments}) [{globals}]")
            }
            Event::Returned(item, results, globals) => {
                let results = Listed(results.as_slice());
                let globals = Listed(globals.as_slice());
                write!(f, "returned {item} ({results}) [{globals}]")
            }
            Event::Trapped(item, globals) => {
                let globals = Listed(globals.as_slice());
                write!(f, "trapped {item} [{globals}]")
            }
            Event::Uncaught(item, tag, payload, globals) => {
                let payload = Listed(payload.as_slice());
                let globals = Listed(globals.as_slice());
                write!(f, "uncaught {item} {tag} ({payload}) [{globals}]")
            }
            Event::Peeked(bytes) => {
                let bytes = Hex(bytes.as_slice());
                write!(f, "peeked ({bytes})")
            }
            Event::OutOfRange => write!(f, "out of range"),
            Event::NoReply(import) => write!(f, "no reply {import}"),
            Event::Done => write!(f, "done"),
            Event::Full => write!(f, "full"),
        }
    }
}

/// The text of events, a line for each. It fails for want of memory alone.
pub fn print(alloc: Global, events: &[Event]) -> Result<Text, AllocError>
    ensures { IfOk result (λ text. text ≡ events_text events.now) }
{
    let mut text = String::new(alloc);
    for event in events {
        writeln!(text, "{event}")?;
    }
    Ok(Text::from_string(text))
}
