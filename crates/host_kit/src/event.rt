use super::value::Values;
use num_core::lists::Bytes;

/// What a host sees of a run. The number of an item is its place in the script, from 0, and that of an imported function
/// its place among the imported functions. The last values of an event are those of the exported globals, in export
/// order.
#[derive(Drop)]
pub enum Event {
    /// The module is instantiated.
    Started,
    /// A trap or an uncaught exception while instantiating, which ends the run.
    Failed,
    /// This imported function was called with these arguments.
    HostCall(u32, Values, Values),
    /// The call of this item returned these results.
    Returned(u32, Values, Values),
    /// The call of this item trapped.
    Trapped(u32, Values),
    /// The call of this item ended in an exception with this tag and these values.
    Uncaught(u32, u32, Values, Values),
    /// The bytes that the host read.
    Peeked(Bytes),
    /// The host asked for bytes that are not all in the memory.
    OutOfRange,
    /// This imported function was called and the host had no reply left, which ends the run.
    NoReply(u32),
    /// The items are done.
    Done,
    /// The lowered module has no room for one more caught exception, which ends the run.
    Full,
}
