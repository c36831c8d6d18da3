// Reads a file in passes: its frame, its sections and bodies, the counts, the limits, and only then its module is built.

ghost use Rattle.std.specs.Prelude.{◌≡◌, Result};
ghost use Rattle.module_reading.specs.declared.fault.ReadFault.{ReadFault};
ghost use Rattle.module_reading.specs.Means.{Laws};
ghost use Rattle.module_reading.specs.Reads.{Reads, Tells, UnlessMemory};
ghost use Rattle.module_reading.specs.Sizes.{IsMeasured};
ghost use Rattle.module_reading.specs.Steps.{Step};
ghost use Rattle.module_reading.specs.Numbers.{IsFront};

use crate::fault::ReadFault;
use crate::file::File;
use crate::format::ModuleFormat;
use crate::numbers::{FRONT_KINDS, LAST_KINDS, Numbers, first_passed};
use crate::sections::measure;
use crate::sizes::FileSizes;
use std::alloc::Global;

/// The module that the bytes of a file spell in a version of the format. A file that spells none, or passes a limit, is
/// refused by the first of these that holds: its frame is broken; a section is not in its grammar; a body is not; the counts
/// disagree; a limit is passed. Nothing of a size that a limit bounds is built before that limit was tested. Each payload is
/// walked over twice at most, once to check and measure it and once to build.
pub fn read<F: ModuleFormat>(alloc: Global, b: &[u8]) -> Result<F::Module, ReadFault>
    ensures tells { Tells F.format b.now result }
    ensures only { UnlessMemory result ((other : Result F.Module ReadFault) → Reads F.format b.now other → other ≡ result) }
{
    F::laws();
    read_bytes::<F>(alloc, b)
}

/// The same of a file whose sections are in place.
pub fn read_file<F: ModuleFormat>(alloc: Global, file: &File<'_>) -> Result<F::Module, ReadFault>
    requires { file.now.version ≡ F.format.version }
    ensures tells { Tells F.format file.now.bytes result }
    ensures only { UnlessMemory result ((other : Result F.Module ReadFault) → Reads F.format file.now.bytes other → other ≡ result) }
{
    F::laws();
    read_steps::<F>(alloc, file)
}

fn read_bytes<F: ModuleFormat>(alloc: Global, b: &[u8]) -> Result<F::Module, ReadFault>
    requires { Laws F.format F.means }
    ensures { Tells F.format b.now result }
{
    let file = File::open(alloc, b, F::version())?;
    read_steps::<F>(alloc, &file)
}

fn read_steps<F: ModuleFormat>(alloc: Global, file: &File<'_>) -> Result<F::Module, ReadFault>
    requires version { file.now.version ≡ F.format.version }
    requires laws { Laws F.format F.means }
    ensures { Tells F.format file.now.bytes result }
{
    let sizes = measure::<F>(alloc, file)?;
    let numbers = check_front::<F>(file, &sizes)?;
    build_within::<F>(alloc, file, numbers)
}

/// The numbers of a file, if its counts agree and none of those that are known passes its limit.
fn check_front<F: ModuleFormat>(file: &File<'_>, sizes: &FileSizes) -> Result<Numbers, ReadFault>
    requires measured { IsMeasured F.format F.means file.now sizes.now }
    requires laws { Laws F.format F.means }
    ensures { Step F.format file.now.bytes result (λ n. IsFront F.format F.means file.now n) }
{
    if !F::agree(sizes) {
        return Err(ReadFault::Counts);
    }
    let numbers = F::numbers(sizes);
    match first_passed::<F>(&FRONT_KINDS, &numbers) {
        Some(kind) => Err(ReadFault::Limit(kind)),
        None => Ok(numbers),
    }
}

/// Builds the module of a file whose numbers are these, if none of the others passes its limit.
fn build_within<F: ModuleFormat>(
    alloc: Global,
    file: &File<'_>,
    numbers: Numbers,
) -> Result<F::Module, ReadFault>
    requires { IsFront F.format F.means file.now numbers }
    ensures { Tells F.format file.now.bytes result }
{
    let declared = F::declare(alloc, file)?;
    let payload = F::payload_words(&declared);
    let numbers = Numbers { payload, ..numbers };
    if let Some(kind) = first_passed::<F>(&LAST_KINDS, &numbers) {
        return Err(ReadFault::Limit(kind));
    }
    Ok(F::build(alloc, file, declared)?)
}
