// The files that the text of a manifest names.
ghost use Rattle.std.specs.Prelude.{◌≡◌, IfOk, IfErr, IfSome, List, ℕ, map, None, is_none};
ghost use Rattle.std.specs.List.{AllByRecursion, AllZip};
ghost use Rattle.med_base.specs.Memory.{WhyIs};
ghost use Rattle.med_base.specs.Names.{component_fault};
ghost use Rattle.med_json.specs.Borrowed.{HasTree, tree_of};
ghost use Rattle.med_json.specs.Tree.{IsText};
ghost use Rattle.med_manifest.specs.Named.{Named, named, IsFile, IsTable, AreTables, HasFiles, NamesFiles};
ghost use Rattle.med_manifest.specs.Refusals.{IsRefused, IsUnshaped};

use crate::{ManifestError, ManifestWhy};
use json::{Scratch, Value};
use med_base::{Component, NameError, NoMemory};
use med_json::JsonError;
use med_json::borrowed::{items_of, list_in, number_in, read_value, text_in};
use std::alloc::Global;

/// A file as the text names it.
#[derive(Clone, Copy)]
pub(crate) struct NamedFile<'a> {
    pub(crate) keyspace: &'a str,
    pub(crate) table: &'a str,
    pub(crate) path: &'a str,
    pub(crate) size: u64,
    pub(crate) md5: &'a str,
}

// The file of a table that a value is, if it is one.
fn file_in<'a>(keyspace: &'a str, table: &'a str, value: &Value<'a>) -> Option<NamedFile<'a>>
    requires { HasTree value.now }
    ensures found { IfSome result
        (λ file. IsFile keyspace.now table.now (tree_of value.now) (named file)) }
    ensures none { result ≡ None
        → (file : Named) → IsFile keyspace.now table.now (tree_of value.now) file → ⊥ }
{
    let path = text_in(value, "path")?;
    let size = number_in(value, "size")?;
    let md5 = text_in(value, "MD5")?;
    Some(NamedFile {
        keyspace,
        table,
        path,
        size,
        md5,
    })
}

// The files of a table that values are, if each is one.
fn files_in<'a>(
    alloc: Global,
    keyspace: &'a str,
    table: &'a str,
    list: &[Value<'a>],
) -> Result<Option<Vec<NamedFile<'a>>>, NoMemory>
    requires { AllByRecursion HasTree list.now }
    ensures found { IfOk result (λ o. IfSome o
        (λ files. AllZip (IsFile keyspace.now table.now) (map tree_of list.now)
        (map named files.items))) }
    ensures none { IfOk result (λ o. o ≡ None → (files : List Named)
        → AllZip (IsFile keyspace.now table.now) (map tree_of list.now) files → ⊥) }
{
    let mut files = Vec::new(alloc);
    for value in list {
        let Some(file) = file_in(keyspace, table, value) else {
            return Ok(None);
        };
        files.push(file)?;
    }
    Ok(Some(files))
}

fn is_component(alloc: Global, text: &str) -> Result<bool, NoMemory>
    ensures { IfOk result (λ is. is ≡ is_none (component_fault text.now)) }
{
    match Component::read(alloc, text) {
        Ok(_) => Ok(true),
        Err(NameError::BadName { .. }) => Ok(false),
        Err(NameError::Memory) => Err(NoMemory),
    }
}

// The files of the table that a value is, if it is one.
fn table_in<'a>(alloc: Global, value: &Value<'a>) -> Result<Option<Vec<NamedFile<'a>>>, NoMemory>
    requires { HasTree value.now }
    ensures found { IfOk result
        (λ o. IfSome o (λ files. IsTable (tree_of value.now) (map named files.items))) }
    ensures none { IfOk result
        (λ o. o ≡ None → (files : List Named) → IsTable (tree_of value.now) files → ⊥) }
{
    let Some(keyspace) = text_in(value, "keyspace") else {
        return Ok(None);
    };
    let Some(table) = text_in(value, "columnfamily") else {
        return Ok(None);
    };
    let Some(list) = list_in(value, "objects") else {
        return Ok(None);
    };
    if !is_component(alloc, keyspace)? || !is_component(alloc, table)? {
        return Ok(None);
    }
    files_in(alloc, keyspace, table, list)
}

// The files of the tables that values are.
fn files_of<'a>(alloc: Global, list: &[Value<'a>]) -> Result<Vec<NamedFile<'a>>, ManifestError>
    requires { AllByRecursion HasTree list.now }
    ensures ok { IfOk result (λ files. AreTables (map tree_of list.now) (map named files.items)) }
    ensures err { IfErr result (WhyIs (IsUnshaped (map tree_of list.now))) }
{
    let mut files = Vec::new(alloc);
    for (at, value) in list.iter().enumerate() {
        let Some(mut more) = table_in(alloc, value)? else {
            return Err(ManifestError::Why(ManifestWhy::NotManifest { at }));
        };
        files.append(&mut more)?;
    }
    Ok(files)
}

// The value of a text, or why it has none.
fn read_tree<'a>(
    alloc: Global,
    bytes: &'a [u8],
    scratch: &'a mut Scratch,
) -> Result<Value<'a>, ManifestError>
    ensures ok { IfOk result (λ value. IsText bytes.now (tree_of value)) }
    ensures tree { IfOk result HasTree }
    ensures err { IfErr result
        (λ e. (before f n : List ℕ) → WhyIs (IsRefused before f n bytes.now) e) }
{
    match read_value(alloc, bytes, scratch) {
        Ok(value) => Ok(value),
        Err(JsonError::NotJson) => Err(ManifestError::Why(ManifestWhy::NotJson)),
        Err(JsonError::Memory) => Err(ManifestError::Memory),
    }
}

// The files that a value names as a manifest.
fn named_files<'a>(alloc: Global, value: &Value<'a>) -> Result<Vec<NamedFile<'a>>, ManifestError>
    requires { HasTree value.now }
    ensures ok { IfOk result (λ files. HasFiles (tree_of value.now) (map named files.items)) }
    ensures err { IfErr result
        (λ e. (before f n bytes : List ℕ) → IsText bytes (tree_of value.now)
        → WhyIs (IsRefused before f n bytes) e) }
{
    match items_of(value) {
        Some(list) => files_of(alloc, list),
        None => Err(ManifestError::Why(ManifestWhy::NotManifest { at: 0 })),
    }
}

/// The files that a text names as a manifest.
pub(crate) fn files_named<'a>(
    alloc: Global,
    bytes: &'a [u8],
    scratch: &'a mut Scratch,
) -> Result<Vec<NamedFile<'a>>, ManifestError>
    ensures ok { IfOk result (λ files. NamesFiles bytes.now (map named files.items)) }
    ensures err { IfErr result
        (λ e. (before f n : List ℕ) → WhyIs (IsRefused before f n bytes.now) e) }
{
    let value = read_tree(alloc, bytes, scratch)?;
    named_files(alloc, &value)
}
