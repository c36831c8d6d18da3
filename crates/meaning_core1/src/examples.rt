// What the definitions give at the corners of the standard's rules, each as the contract of a function that does nothing.

ghost use Rattle.meaning_core1.specs.Examples.{DividesTheLeast, ShiftsByTheWidth, LoadsAcrossTheEnd, GrowsAsTold, CallsByTheTable, StartsOrFails};

/// Integers, a load at the end of a memory, and growths.
pub fn instructions_compute()
    ensures division { DividesTheLeast }
    ensures shifts { ShiftsByTheWidth }
    ensures loads { LoadsAcrossTheEnd }
    ensures growths { GrowsAsTold }
{}

/// Calls by the table, and start functions.
pub fn calls_compute()
    ensures indirect { CallsByTheTable }
    ensures start { StartsOrFails }
{}
