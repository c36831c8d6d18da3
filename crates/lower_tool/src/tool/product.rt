ghost use Rattle.std.specs.Prelude.{◌≡◌, ℕ, ◌≤◌, ◌⊎◌, List, IsOk, IsErr};
ghost use Rattle.std.specs.Io.KnownBytes.{Appends};
ghost use Rattle.tool_files.specs.Causes.{Rose};
ghost use Rattle.tool_files.specs.Held.{Sets};
ghost use Rattle.lower_tool.specs.Products.{IfFile, IfPrinted};
ghost use Rattle.lower_tool.specs.Statuses.{LeavesFront, AppendsFront};

use super::output::write_file;
use super::print::{print_all, print_run};
use super::status;
use crate::files::{FileFault, Files};
use crate::running::Shown;
use crate::sink::{Sink, SinkFault};
use num_core::lists::Bytes;

/// What a command has made, and is to hand out.
#[derive(Drop)]
pub enum Product<'a> {
    /// A file of this name and these bytes.
    File(&'a str, Bytes),
    /// The line `ok`.
    Fine,
    /// What is shown of a run.
    Run(Shown),
}

/// Hands out what a command has made, and gives the status. It takes no memory.
pub fn deliver<F: Files, S: Sink>(product: &Product, files: &mut F, out: &mut S) -> u8
    ensures status { (result ≡ 0) ⊎ (result ≡ 4) }
    ensures file { result ≡ 0 → IfFile product.now (Sets (F.holds files.old) (F.holds files.new)) }
    ensures cut_file { result ≡ 4 → IfFile product.now (LeavesFront (F.holds files.old) (F.holds files.new)) }
    ensures file_fault { result ≡ 4 → IfFile product.now (λ name bytes. Rose (F.write_faults files.old) (F.write_faults files.new)) }
    ensures silent { IfFile product.now (λ name bytes. out.new ≡ out.old) }
    ensures text { result ≡ 0 → IfPrinted product.now (Appends (S.written out.old) (S.written out.new)) }
    ensures cut_text { result ≡ 4 → IfPrinted product.now (AppendsFront (S.written out.old) (S.written out.new)) }
    ensures text_fault { result ≡ 4 → IfPrinted product.now (λ text. Rose (S.faults out.old) (S.faults out.new)) }
    ensures untouched { IfPrinted product.now (λ text. files.new ≡ files.old) }
    ensures reads { F.read_faults files.new ≡ F.read_faults files.old }
    ensures writes_later { F.write_faults files.old ≤ F.write_faults files.new }
    ensures sink_later { S.faults out.old ≤ S.faults out.new }
    ensures still { (other : List ℕ) → F.can_begin files.old other → F.can_begin files.new other }
{
    match product {
        Product::File(name, bytes) => match write_file(name, bytes.as_slice(), files) {
            Ok(()) => status::DONE,
            Err(FileFault::Failed) => status::CANNOT_WRITE,
        },
        Product::Fine => printed(print_all(b"ok\n", out)),
        Product::Run(shown) => printed(print_run(shown, out)),
    }
}

/// The status of a command that has printed, by how that ended.
fn printed(ended: Result<(), SinkFault>) -> u8
    ensures status { (result ≡ 0) ⊎ (result ≡ 4) }
    ensures done { result ≡ 0 → IsOk ended }
    ensures cut { result ≡ 4 → IsErr ended }
{
    match ended {
        Ok(()) => status::DONE,
        Err(SinkFault::Failed) => status::CANNOT_WRITE,
    }
}
