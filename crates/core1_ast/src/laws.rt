// The typing on examples, as the contract of a function that does nothing.

ghost use Rattle.core1_ast.specs.Example.{IsTyped, IsNotMistyped, HasNoFloat, IsInRange, HasOneMemory};

/// A small module with a part of each kind is typed. It is not when its function gives the wrong type or declares a
/// float, nor with a memory that is too large or with two.
pub fn examples()
    ensures typed { IsTyped }
    ensures mistyped { IsNotMistyped }
    ensures float { HasNoFloat }
    ensures large { IsInRange }
    ensures two { HasOneMemory }
{}
