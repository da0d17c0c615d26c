// Reads a text in the ini form.
ghost use Rattle.std.specs.Prelude.{◌≡◌, ◌==◌, IfOk, IfErr};
ghost use Rattle.std.specs.List.{count_by};
ghost use Rattle.std.specs.Str.{IsUtf8};
ghost use Rattle.med_ini.specs.Grammar.{BlamesIni, HasNone, IsIni};

use crate::Ini;
use crate::document::entries_of;
use crate::errors::{IniError, IniKind};
use crate::reading::labels_of;
use std::alloc::Global;

fn feeds_in(bytes: &[u8]) -> usize
    ensures { result ≡ count_by (λ b. b == 10) bytes.now }
{
    bytes.iter().filter(|byte| **byte == b'\n').count()
}

// The bytes as a text, or the line of the first byte that is none.
fn text_of(bytes: &[u8]) -> Result<&str, IniError>
    ensures ok { IfOk result (λ t. (t.now ≡ bytes.entry.now) × IsUtf8 bytes.entry.now) }
    ensures err { IfErr result (BlamesIni bytes.entry.now) }
    ensures refused { IfErr result (HasNone bytes.entry.now) }
{
    match str::from_utf8(bytes) {
        Ok(text) => Ok(text),
        Err(error) => {
            let line = feeds_in(&bytes[..error.valid_up_to()]) as u64 + 1;
            let kind = IniKind::NotUtf8;
            Err(IniError::Fault { line, kind })
        }
    }
}

/// The options that a text in the ini form sets, or its first fault with its line, which counts
/// from 1. A byte that isn't UTF-8 is told before any other fault. `Memory` alone comes where
/// there was no memory.
pub fn read_ini(alloc: Global, bytes: &[u8]) -> Result<Ini, IniError>
    ensures ok { IfOk result (IsIni bytes.now) }
    ensures err { IfErr result (BlamesIni bytes.now) }
    ensures refused { IfErr result (HasNone bytes.now) }
{
    let text = text_of(bytes)?;
    let labels = labels_of(alloc, text)?;
    let entries = entries_of(alloc, labels.as_slice())?;
    Ok(Ini::of(entries))
}
