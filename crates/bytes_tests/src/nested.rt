// `nested_code`: what stands in expressions, how deeply they nest, and what is none.

ghost use Rattle.std.specs.Prelude.{◌≡◌, ℕ, true, false, cond, nat_lt, ◌==◌};
ghost use Rattle.nested_code.specs.declared.token.Token.TheVariants.{Plain, Open, Else, End};
ghost use Rattle.bytes_tests.specs.declared.nested.Instr.TheVariants.{Letter, Block, Choice};

use grammar_kit::{FormError, read_byte};
use nested_code::{Language, Token, measure_expr, read_expr};
use sqlite_items::Items;
use std::alloc::{AllocError, Global};
use std::test::Fail;

/// Letters, blocks, and choices of two arms.
#[derive(Drop)]
enum Instr {
    Letter(u8),
    Block(Items<Instr>),
    Choice(Items<Instr>, Items<Instr>),
}

struct Letters;

impl Language for Letters {
    ghost use Rattle.std.specs.Prelude.{Bool};
    ghost use Rattle.bytes_tests.specs.declared.nested.Instr.{out-Instr};
    ghost use Rattle.bytes_tests.specs.declared.nested.Instr.TheOpen.{Instr-F};
    ghost use Rattle.grammar_kit.specs.Form.{byte, never, always, when, ◌>>=◌ as followed_by};

    type Instr = Instr;

    /// Whether it is a choice.
    type Head = bool;

    ghost token = { followed_by byte (λ b.
        when (b == 0x02) (always (Open false))
        (when (b == 0x04) (always (Open true))
        (when (b == 0x05) (always Else)
        (when (b == 0x0B) (always End)
        (when (nat_lt b 0x41) never (always (Plain (Letter b)))))))) };

    ghost has_arms = { λ h. h };

    ghost marks = { λ i. elim (out-Instr i) as (λ _. Bool) [ Instr-F.Letter b ↦ b == 0x5A | Instr-F.Block code ↦ false | Instr-F.Choice first second ↦ false ] };

    ghost build = { λ h first second. cond h (Choice first second) (Block first) };

    fn token(_alloc: Global, bytes: &[u8]) -> Result<(Token<Instr, bool>, &[u8]), FormError> {
        let (opcode, rest) = read_byte(bytes).ok_or(FormError::Malformed)?;
        let token = match opcode {
            0x02 => Token::Open(false),
            0x04 => Token::Open(true),
            0x05 => Token::Else,
            0x0B => Token::End,
            0x41.. => Token::Plain(Instr::Letter(opcode)),
            _ => return Err(FormError::Malformed),
        };
        Ok((token, rest))
    }

    fn has_arms(head: &bool) -> bool {
        *head
    }

    fn marks(instr: &Instr) -> bool {
        matches!(instr, Instr::Letter(b'Z'))
    }

    fn build(head: bool, first: Items<Instr>, second: Items<Instr>) -> Instr
        ensures { result ≡ cond head (Choice first second) (Block first) }
    {
        if head {
            Instr::Choice(first, second)
        } else {
            Instr::Block(first)
        }
    }
}

/// Writes letters as they are, a block as `(A)`, and a choice as `(A|B)`.
fn write_code(code: &[Instr], text: &mut Vec<u8>) -> Result<(), AllocError> {
    for instr in code {
        match instr {
            Instr::Letter(letter) => text.push(*letter)?,
            Instr::Block(inner) => {
                text.push(b'(')?;
                write_code(inner.as_slice(), text)?;
                text.push(b')')?;
            }
            Instr::Choice(first, second) => {
                text.push(b'(')?;
                write_code(first.as_slice(), text)?;
                text.push(b'|')?;
                write_code(second.as_slice(), text)?;
                text.push(b')')?;
            }
        }
    }
    Ok(())
}

/// Expressions, what stands in them, how deeply they nest, whether a Z occurs, and how many bytes are left behind them.
fn expressions() -> [(&'static [u8], &'static [u8], u32, bool, usize); 8] {
    [
        (b"\x0B", b"", 0, false, 0),
        (b"A\x0BZ", b"A", 0, false, 1),
        (b"Z\x0B", b"Z", 0, true, 0),
        (b"A\x02B\x0BC\x0B", b"A(B)C", 1, false, 0),
        (b"\x04A\x05B\x0B\x0B\x0B", b"(A|B)", 1, false, 1),
        (b"A\x04B\x0B\x0B", b"A(B|)", 1, false, 0),
        (b"\x04A\x05\x02Z\x0B\x0BB\x0B", b"(A|(Z))B", 2, true, 0),
        (
            b"\x04\x02\x0B\x05A\x04\x02B\x0BC\x0B\x0BD\x0B",
            b"(()|A((B)C|))D",
            3,
            false,
            0,
        ),
    ]
}

/// What is no expression: no end, an else outside, in a block or twice, and a byte that is no token.
fn refused() -> [&'static [u8]; 6] {
    [
        b"",
        b"A\x02B\x0B",
        b"\x05\x0B",
        b"\x02A\x05B\x0B\x0B",
        b"\x04\x05\x05\x0B\x0B",
        b"\x01\x0B",
    ]
}

/// Whether an expression is read and measured so.
fn is_right(
    alloc: Global,
    bytes: &[u8],
    (want, depth, marked, left): (&[u8], u32, bool, usize),
) -> Result<bool, Fail> {
    let (code, rest) = read_expr::<Letters>(alloc, bytes)?;
    let mut text = Vec::new(alloc);
    write_code(code.as_slice(), &mut text)?;
    let (sizes, after) = measure_expr::<Letters>(alloc, bytes)?;
    Ok(
        text.as_slice() == want
            && rest.len() == left
            && sizes.nesting == depth
            && sizes.marked == marked
            && after.len() == left,
    )
}

/// Whether bytes are no expression, for the reader and for the measure.
fn is_refused(alloc: Global, bytes: &[u8]) -> bool {
    let read = matches!(
        read_expr::<Letters>(alloc, bytes),
        Err(FormError::Malformed)
    );
    let measured = matches!(
        measure_expr::<Letters>(alloc, bytes),
        Err(FormError::Malformed)
    );
    read && measured
}

#[test]
fn expressions_are_read_and_measured(rt: HostRuntime) -> Result<(), Fail> {
    for (bytes, want, depth, marked, left) in expressions() {
        assert!(rt; is_right(rt.alloc(), bytes, (want, depth, marked, left))?);
    }
    Ok(())
}

#[test]
fn what_is_no_expression_is_refused(rt: HostRuntime) -> Result<(), Fail> {
    for bytes in refused() {
        assert!(rt; is_refused(rt.alloc(), bytes));
    }
    let open = vec![in rt.alloc(); 0x02u8; 100_000]?;
    assert!(rt; is_refused(rt.alloc(), open.as_slice()));
    Ok(())
}
