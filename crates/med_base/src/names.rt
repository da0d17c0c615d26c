// Names of nodes and of backups. A name is seen as its bytes.
ghost use Rattle.std.specs.Prelude.{◌≡◌, ◌||◌, [], None, IfOk, OnOk, IfErr, position, string_bytes, codes};
ghost use Rattle.std.specs.Str.{bytes_eq};
ghost use Rattle.med_base.specs.Names.{is_forbidden, begins_with_dot, first_fault, fqdn_fault, backup_fault, Blames};

use crate::NoMemory;
use std::alloc::{AllocError, Global};
use std::marker::Model;

/// Why a text is no name, or no name could be made of it.
#[derive(Clone, Copy, Debug, PartialEq, Eq)]
pub enum NameError {
    /// The text breaks the rules at this byte.
    BadName { at: usize },
    Memory,
}

fn is_forbidden_byte(b: u8) -> bool
    ensures { result ≡ is_forbidden b }
{
    b == b'/' || b == 0 || b == b'\n'
}

fn first_forbidden(text: &[u8]) -> Option<usize>
    ensures { result ≡ position is_forbidden text.now }
{
    text.iter().position(|b| is_forbidden_byte(*b))
}

/// The place at which a text first breaks the rules of names.
pub(crate) fn fault_in(text: &[u8], is_refused: bool, limit: usize) -> Option<usize>
    ensures { result ≡ first_fault is_refused limit text.now }
{
    if is_refused {
        return Some(0);
    }
    let forbidden = first_forbidden(text);
    if forbidden.is_some() {
        return forbidden;
    }
    if limit < text.len() {
        Some(limit)
    } else {
        None
    }
}

/// A copy of a text that has no fault.
pub(crate) fn accepted(alloc: Global, text: &str, fault: Option<usize>) -> Result<String, NameError>
    ensures ok { IfOk result (λ copy. string_bytes copy ≡ text.now) }
    ensures fits { OnOk result (fault ≡ None) }
    ensures err { IfErr result (Blames fault) }
{
    if let Some(at) = fault {
        return Err(NameError::BadName { at });
    }
    match String::from_str(alloc, text) {
        Ok(copy) => Ok(copy),
        Err(AllocError) => Err(NameError::Memory),
    }
}

pub(crate) fn begins_with_a_dot(text: &[u8]) -> bool
    ensures { result ≡ begins_with_dot text.now }
{
    match text {
        [b'.', ..] => true,
        _ => false,
    }
}

/// Whether a text is empty, `.` or `..`.
pub(crate) fn is_dots(text: &[u8]) -> bool
    ensures { result ≡ (bytes_eq text.now [] || bytes_eq text.now (codes ".") || bytes_eq text.now
        (codes "..")) }
{
    text.is_empty() || text == b".".as_slice() || text == b"..".as_slice()
}

/// The place at which a text first fails to be the name of a node.
pub(crate) fn fault_in_fqdn(text: &str) -> Option<usize>
    ensures { result ≡ fqdn_fault text.now }
{
    let is_refused = text.is_empty() || begins_with_a_dot(text.as_bytes()) || text == "index";
    fault_in(text.as_bytes(), is_refused, 200)
}

/// The place at which a text first fails to be the name of a backup.
pub(crate) fn fault_in_backup(text: &str) -> Option<usize>
    ensures { result ≡ backup_fault text.now }
{
    let is_refused = text.is_empty()
        || begins_with_a_dot(text.as_bytes())
        || text == "data"
        || text == "meta";
    fault_in(text.as_bytes(), is_refused, 200)
}

/// The name of a node: a component of at most 200 bytes that begins with no dot and isn't `index`.
#[derive(Debug, Drop)]
pub struct Fqdn {
    text: String,
}

impl Model for Fqdn {
    ghost use Rattle.std.specs.Prelude.{◌≡◌, List, ℕ, string_bytes, None};
    ghost use Rattle.med_base.specs.Names.{fqdn_fault};

    ghost Value = { List ℕ };

    ghost view = { λ f. string_bytes f.text };

    ghost invariant = { λ f. fqdn_fault (string_bytes f.text) ≡ None };
}

impl Fqdn {
    /// The node of that name.
    pub fn read(alloc: Global, text: &str) -> Result<Fqdn, NameError>
        ensures ok { IfOk result (λ name. name ≡ text.now) }
        ensures fits { IfOk result (λ name. fqdn_fault name ≡ None) }
        ensures err { IfErr result (Blames (fqdn_fault text.now)) }
    {
        let text = accepted(alloc, text, fault_in_fqdn(text))?;
        Ok(Fqdn { text })
    }

    pub fn as_str(&self) -> &str
        ensures value { result.now ≡ self.now }
        ensures fits { fqdn_fault self.now ≡ None }
    {
        self.text.as_str()
    }

    /// An equal name.
    pub fn copy(&self, alloc: Global) -> Result<Fqdn, NoMemory>
        ensures { IfOk result (λ name. name ≡ self.now) }
    {
        let text = String::from_str(alloc, self.text.as_str())?;
        Ok(Fqdn { text })
    }
}

/// The name of a backup: a component of at most 200 bytes that begins with no dot and is neither
/// `data` nor `meta`.
#[derive(Debug, Drop)]
pub struct BackupName {
    text: String,
}

impl Model for BackupName {
    ghost use Rattle.std.specs.Prelude.{◌≡◌, List, ℕ, string_bytes, None};
    ghost use Rattle.med_base.specs.Names.{backup_fault};

    ghost Value = { List ℕ };

    ghost view = { λ n. string_bytes n.text };

    ghost invariant = { λ n. backup_fault (string_bytes n.text) ≡ None };
}

impl BackupName {
    /// The backup of that name.
    pub fn read(alloc: Global, text: &str) -> Result<BackupName, NameError>
        ensures ok { IfOk result (λ name. name ≡ text.now) }
        ensures fits { IfOk result (λ name. backup_fault name ≡ None) }
        ensures err { IfErr result (Blames (backup_fault text.now)) }
    {
        let text = accepted(alloc, text, fault_in_backup(text))?;
        Ok(BackupName { text })
    }

    pub fn as_str(&self) -> &str
        ensures value { result.now ≡ self.now }
        ensures fits { backup_fault self.now ≡ None }
    {
        self.text.as_str()
    }

    /// An equal name.
    pub fn copy(&self, alloc: Global) -> Result<BackupName, NoMemory>
        ensures { IfOk result (λ name. name ≡ self.now) }
    {
        let text = String::from_str(alloc, self.text.as_str())?;
        Ok(BackupName { text })
    }
}
