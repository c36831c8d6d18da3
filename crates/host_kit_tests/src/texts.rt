// The texts of events.

use host_kit::{Event, Value, Values, print};
use num_core::lists::{Bytes, TryCopy};
use sqlite_items::Items;
use std::alloc::{AllocError, Global};
use std::test::Fail;

/// An event of each form, with values of each form.
static LINES: &str = "started\n\
host 0 (i32 2147483648, i64 18446744073709551615, v128 1 18446744073709551615, func 3, extern 4, null func, null extern) [i32 5]\n\
returned 1 () []\n\
returned 4294967295 (i32 4294967295) [i64 2, i32 3]\n\
trapped 2 [i32 0]\n\
uncaught 3 4 (i32 7) []\n\
peeked (000a9eff)\n\
peeked ()\n\
out of range\n\
no reply 0\n\
failed\n\
full\n\
done\n";

/// These values as a list.
fn list(alloc: Global, values: &[Value]) -> Result<Values, AllocError> {
    Items::from_slice(alloc, values)
}

/// A call of a host's function with a value of each form.
fn host_call(alloc: Global) -> Result<Event, AllocError> {
    let arguments = [
        Value::I32(1 << 31),
        Value::I64(u64::MAX),
        Value::V128(1, u64::MAX),
        Value::Func(3),
        Value::Extern(4),
        Value::NullFunc,
        Value::NullExtern,
    ];
    let arguments = list(alloc, arguments.as_slice())?;
    let globals = list(alloc, [Value::I32(5)].as_slice())?;
    Ok(Event::HostCall(0, arguments, globals))
}

/// Appends the ends of calls.
fn put_ends(alloc: Global, events: &mut Items<Event>) -> Result<(), AllocError> {
    events.push(Event::Returned(1, list(alloc, &[])?, list(alloc, &[])?))?;
    let results = list(alloc, [Value::I32(u32::MAX)].as_slice())?;
    let globals = list(alloc, [Value::I64(2), Value::I32(3)].as_slice())?;
    events.push(Event::Returned(u32::MAX, results, globals))?;
    events.push(Event::Trapped(2, list(alloc, [Value::I32(0)].as_slice())?))?;
    let payload = list(alloc, [Value::I32(7)].as_slice())?;
    events.push(Event::Uncaught(3, 4, payload, list(alloc, &[])?))
}

/// The events of `LINES`.
fn events(alloc: Global) -> Result<Items<Event>, AllocError> {
    let mut events = Items::new(alloc);
    events.push(Event::Started)?;
    events.push(host_call(alloc)?)?;
    put_ends(alloc, &mut events)?;
    events.push(Event::Peeked(Bytes::from_slice(alloc, &[0, 10, 158, 255])?))?;
    events.push(Event::Peeked(Bytes::new(alloc)))?;
    events.push(Event::OutOfRange)?;
    events.push(Event::NoReply(0))?;
    events.push(Event::Failed)?;
    events.push(Event::Full)?;
    events.push(Event::Done)?;
    Ok(events)
}

#[test]
fn each_event(rt: HostRuntime) -> Result<(), Fail> {
    let events = events(rt.alloc())?;
    assert_eq!(rt; print(rt.alloc(), events.as_slice())?.as_str(), LINES);
    assert_eq!(rt; print(rt.alloc(), &[])?.as_str(), "");
    Ok(())
}

#[test]
fn copies_of_events(rt: HostRuntime) -> Result<(), Fail> {
    let copies = events(rt.alloc())?.copy(rt.alloc())?;
    assert_eq!(rt; print(rt.alloc(), copies.as_slice())?.as_str(), LINES);
    Ok(())
}
