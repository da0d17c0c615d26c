// Why a text isn't in the ini form.
ghost use Rattle.std.specs.Prelude.{◌≡◌, Some};
ghost use Rattle.med_ini.specs.declared.errors.IniError.TheVariants.{Memory};
ghost use Rattle.med_ini.specs.Texts.{kind_text};

use med_base::NoMemory;
use std::alloc::AllocFailed;
use std::fmt;
use thiserror::Error;

/// What is wrong with a text. A line has at most one of the faults behind the first.
#[derive(Clone, Copy, Debug)]
pub enum IniKind {
    /// The text isn't UTF-8. This is told before any other fault.
    NotUtf8,
    /// A line that is no header stands before any header.
    NoSection,
    /// An option has neither `=` nor `:`.
    NoDelimiter,
    /// A header has the name of one before, other than `DEFAULT`.
    DuplicateSection,
    /// The key of an option stands already in its section.
    DuplicateOption,
    /// Nothing stands before the delimiter of an option.
    EmptyKey,
}

impl IniKind {
    /// What it is called, in lower case.
    pub fn text(self) -> &'static str
        ensures { result.now ≡ kind_text self }
    {
        match self {
            IniKind::NotUtf8 => "not utf-8",
            IniKind::NoSection => "no section",
            IniKind::NoDelimiter => "no delimiter",
            IniKind::DuplicateSection => "duplicate section",
            IniKind::DuplicateOption => "duplicate option",
            IniKind::EmptyKey => "empty key",
        }
    }
}

impl fmt::Display for IniKind {
    ghost output = { λ kind. Some (kind_text kind) };

    fn fmt<W: fmt::Write>(&self, f: &mut fmt::Formatter<W>) -> fmt::Result {
        f.write_str(self.text())
    }
}

/// Why a text was refused.
#[derive(Clone, Copy, Debug, Drop, Error)]
pub enum IniError {
    #[error("line {line}: {kind}")]
    Fault { line: u64, kind: IniKind },
    #[error("out of memory")]
    Memory,
}

impl From<NoMemory> for IniError {
    ghost from_gives = { λ _ e. e ≡ Memory };

    fn from(_: NoMemory) -> Self {
        IniError::Memory
    }
}

impl<T: Drop> From<AllocFailed<T>> for IniError {
    ghost from_gives = { λ _ e. e ≡ Memory };

    fn from(_: AllocFailed<T>) -> Self {
        IniError::Memory
    }
}
