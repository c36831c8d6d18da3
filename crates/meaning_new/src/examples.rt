// What the definitions give at the corners of the standard's rules, each as the contract of a function that does nothing.

ghost use Rattle.meaning_new.specs.Examples.{DividesTheLeast, ShiftsByTheWidth, LoadsAcrossTheEnd, CopiesAsIfAtOnce, EmptyRanges, GrowsMemoryAsTold, GrowsTableByNull, CallsByTheTable, CatchesInOrder, ThrowsNoNull, TailCallsLeaveHandlers, StartsOrFails};

/// Integers, ranges of a memory, and growths.
pub fn instructions_compute()
    ensures division { DividesTheLeast }
    ensures shifts { ShiftsByTheWidth }
    ensures loads { LoadsAcrossTheEnd }
    ensures copies { CopiesAsIfAtOnce }
    ensures empty { EmptyRanges }
    ensures memories { GrowsMemoryAsTold }
    ensures tables { GrowsTableByNull }
{}

/// Calls by the table, exceptions, tail calls and start functions.
pub fn calls_compute()
    ensures indirect { CallsByTheTable }
    ensures catches { CatchesInOrder }
    ensures null { ThrowsNoNull }
    ensures tails { TailCallsLeaveHandlers }
    ensures start { StartsOrFails }
{}
