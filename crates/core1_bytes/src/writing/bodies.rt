// The bodies of functions.

ghost use Rattle.std.specs.Prelude.{◌≡◌, ◌+◌, ◌<◌, ◌^◌, [], ◌∷◌, ◌++◌, length as list_length, OnOk, IfOk};
ghost use Rattle.core1_bytes.specs.Bodies.{locals_of, body};
ghost use Rattle.core1_bytes.specs.Appends.{declared, IsWrittenBody};

use super::code::write_expr;
use super::entry::{WriteEntry, write_bytes, write_u32, write_vector};
use super::types::write_value_type;
use crate::body::LocalGroup1;
use crate::reading::{BodyEntry, GroupEntry};
use core1_ast::module::{Body1, Ty1};
use num_core::lists::Bytes;
use sqlite_items::Items;
use std::alloc::{AllocError, Global};

impl WriteEntry for GroupEntry {
    fn write(_alloc: Global, out: &mut Bytes, entry: &LocalGroup1) -> Result<(), AllocError> {
        write_u32(out, entry.count)?;
        write_value_type(out, entry.ty)
    }
}

/// Puts one local more behind those of some groups and of a last one. Gives the group that is the last then.
fn add_local(
    groups: &mut Items<LocalGroup1>,
    last: LocalGroup1,
    local: Ty1,
) -> Result<LocalGroup1, AllocError>
    requires { last.count + 1 < 2 ^ 32 }
    ensures { IfOk result (λ grown. declared groups.new grown ≡ declared groups.old last ++ local ∷ []) }
{
    if last.ty == local {
        return Ok(LocalGroup1 {
            count: last.count + 1,
            ty: local,
        });
    }
    close_group(groups, last)?;
    Ok(LocalGroup1 {
        count: 1,
        ty: local,
    })
}

/// Puts a last group behind others, if it has locals.
fn close_group(groups: &mut Items<LocalGroup1>, last: LocalGroup1) -> Result<(), AllocError>
    ensures { OnOk result (locals_of groups.new ≡ declared groups.old last) }
{
    if last.count == 0 {
        return Ok(());
    }
    groups.push(last)?;
    Ok(())
}

/// Groups that declare these locals in order, none of them empty.
fn local_groups(alloc: Global, locals: &[Ty1]) -> Result<Items<LocalGroup1>, AllocError>
    requires { list_length locals.now < 2 ^ 32 }
    ensures { IfOk result (λ groups. locals_of groups ≡ locals.now) }
{
    let mut groups = Items::new(alloc);
    let mut last = LocalGroup1 {
        count: 0,
        ty: Ty1::I32,
    };
    for local in locals {
        last = add_local(&mut groups, last, *local)?;
    }
    close_group(&mut groups, last)?;
    Ok(groups)
}

/// The text of a body: its locals in groups, and its code with the end.
fn body_text(alloc: Global, source: &Body1) -> Result<Bytes, AllocError>
    requires { IsWrittenBody source.now }
    ensures { IfOk result (λ text. body.text text source.now) }
{
    let groups = local_groups(alloc, source.locals.as_slice())?;
    let mut text = Bytes::new(alloc);
    write_vector::<GroupEntry>(alloc, &mut text, groups.as_slice())?;
    write_expr(alloc, &mut text, &source.code)?;
    Ok(text)
}

impl WriteEntry for BodyEntry {
    ghost is_written = { IsWrittenBody };

    fn write(alloc: Global, out: &mut Bytes, entry: &Body1) -> Result<(), AllocError> {
        let text = body_text(alloc, entry)?;
        write_bytes(out, text.as_slice())
    }
}
