// What the file system refuses, counted.
ghost use Rattle.std.specs.Prelude.{◌≡◌, ◌↔◌, ◌⊎◌, IsTrue, IfOk, IsErrOf, IsErrAnd};
ghost use Rattle.med_outside.specs.declared.denied.Denied.TheVariants.{Memory};
ghost use Rattle.med_outside.specs.Causes.{HasCause};
ghost use Rattle.med_folder.specs.Absent.{IsAbsence};
ghost use Rattle.med_folder.specs.Memory.{IsWantOfMemory};

use med_outside::Denied;
use std::io;
use std::io::ErrorKind;

/// What the file system answers, as an answer of a trait. Each refusal counts as a fault, but for
/// want of memory of this process, which has no number of the system's.
pub(crate) fn counted<T>(faults: &mut u64, outcome: io::Result<T>) -> Result<T, Denied>
    ensures value { IfOk result (λ value. outcome ≡ Ok value) }
    ensures memory { IsErrOf result Memory ↔ IsErrAnd outcome IsWantOfMemory }
    ensures cause { HasCause faults.old faults.new result }
{
    match outcome {
        Ok(value) => Ok(value),
        Err(error) => Err(refusal(faults, &error)),
    }
}

fn refusal(faults: &mut u64, error: &io::Error) -> Denied
    ensures memory { (result ≡ Memory) ↔ IsWantOfMemory error.now }
    ensures cause { HasCause {T = Unit {0}} faults.old faults.new (Err result) }
{
    if error.kind() == ErrorKind::OutOfMemory && error.raw_os_error().is_none() {
        return Denied::Memory;
    }
    *faults = faults.saturating_add(1);
    Denied::Failed
}

/// Whether a refusal says that nothing has the path.
pub(crate) fn is_absent(error: &io::Error) -> bool
    ensures { IsTrue result ↔ IsAbsence error.now }
{
    matches!(error.kind(), ErrorKind::NotFound | ErrorKind::NotADirectory)
}
