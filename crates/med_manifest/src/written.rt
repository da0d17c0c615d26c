// The text of a manifest, written piece by piece.
ghost use Rattle.std.specs.Prelude.{◌≡◌, ◌<◌, ◌^◌, ◌∷◌, ◌≤◌, [], IfOk, OnOk, map, length, decimal, codes};
ghost use Rattle.std.specs.List.{prefix_len};
ghost use Rattle.std.specs.Str.{IsUtf8};
ghost use Rattle.hex.specs.Hex.{encode_lower};
ghost use Rattle.json.specs.Token.{key, string, number};
ghost use Rattle.json.specs.Lex.{tokens};
ghost use Rattle.json.specs.Print.{print};
ghost use Rattle.med_manifest.specs.Tokens.{Adds, tokens_of, tokens_of_all, list_data};
ghost use Rattle.med_manifest.specs.Written.{IsDigest, IsFingerprint, HaveFingerprints, table_data, file_data, tables, is_same_table, manifest_data};

use crate::FileRecord;
use json::Writer;
use med_base::{NoMemory, md5_text};
use std::alloc::{AllocError, Global};

/// The text of the tables of files that stand in order of their keys.
pub(crate) fn manifest_bytes(alloc: Global, files: &[FileRecord]) -> Result<Vec<u8>, NoMemory>
    ensures text { IfOk result
        (λ text. text.items ≡ print (tokens_of (manifest_data files.now))) }
    ensures tokens { IfOk result
        (λ text. tokens text.items ≡ tokens_of (manifest_data files.now)) }
    ensures utf8 { IfOk result (λ text. IsUtf8 text.items) }
    ensures prints { OnOk result (HaveFingerprints files.now) }
{
    let mut out = Writer::new(Vec::new(alloc));
    put_manifest(alloc, &mut out, files)?;
    Ok(out.into_inner())
}

fn put_manifest(alloc: Global, out: &mut Writer, files: &[FileRecord]) -> Result<(), NoMemory>
    ensures adds { OnOk result (Adds out.old out.new (tokens_of (manifest_data files.now))) }
    ensures prints { OnOk result (HaveFingerprints files.now) }
{
    out.begin_array()?;
    put_tables(alloc, out, files)?;
    out.end_array()?;
    Ok(())
}

// A member of an object that is a text.
fn put_text(out: &mut Writer, name: &str, text: &str) -> Result<(), AllocError>
    ensures { OnOk result (Adds out.old out.new (key name.now ∷ string text.now ∷ [])) }
{
    out.key(name)?;
    out.string(text)
}

// The digest as digits. It is sixteen bytes, as its type says.
fn put_digest(alloc: Global, out: &mut Writer, md5: [u8; 16]) -> Result<(), NoMemory>
    ensures adds { OnOk result
        (Adds out.old out.new (key (codes "MD5") ∷ string (encode_lower md5) ∷ [])) }
    ensures digest { IsDigest md5 }
{
    let digits = md5_text(alloc, &md5)?;
    put_text(out, "MD5", digits.as_str())?;
    Ok(())
}

// The size in digits. It is below 2^64, as its type says.
fn put_size(out: &mut Writer, size: u64) -> Result<(), AllocError>
    ensures adds { OnOk result
        (Adds out.old out.new (key (codes "size") ∷ number (decimal size) ∷ [])) }
    ensures size { size < 2 ^ 64 }
{
    out.key("size")?;
    out.u64(size)
}

fn put_file(alloc: Global, out: &mut Writer, file: &FileRecord) -> Result<(), NoMemory>
    ensures adds { OnOk result (Adds out.old out.new (tokens_of (file_data file.now))) }
    ensures print { OnOk result (IsFingerprint file.now.fingerprint) }
{
    out.begin_object()?;
    put_digest(alloc, out, file.fingerprint.md5)?;
    put_text(out, "path", file.path.as_str())?;
    put_size(out, file.fingerprint.size)?;
    out.end_object()?;
    Ok(())
}

fn put_files(
    alloc: Global,
    out: &mut Writer,
    first: &FileRecord,
    others: &[FileRecord],
) -> Result<(), NoMemory>
    ensures adds { OnOk result (Adds out.old out.new
        (tokens_of_all (map file_data (first.now ∷ others.now)))) }
    ensures prints { OnOk result (HaveFingerprints (first.now ∷ others.now)) }
{
    put_file(alloc, out, first)?;
    for file in others {
        put_file(alloc, out, file)?;
    }
    Ok(())
}

fn put_list(
    alloc: Global,
    out: &mut Writer,
    first: &FileRecord,
    others: &[FileRecord],
) -> Result<(), NoMemory>
    ensures adds { OnOk result (Adds out.old out.new
        (tokens_of (list_data (map file_data (first.now ∷ others.now))))) }
    ensures prints { OnOk result (HaveFingerprints (first.now ∷ others.now)) }
{
    out.begin_array()?;
    put_files(alloc, out, first, others)?;
    out.end_array()?;
    Ok(())
}

fn put_table(
    alloc: Global,
    out: &mut Writer,
    first: &FileRecord,
    others: &[FileRecord],
) -> Result<(), NoMemory>
    ensures adds { OnOk result (Adds out.old out.new (tokens_of
        (table_data (record { first = first.now; files = first.now ∷ others.now })))) }
    ensures prints { OnOk result (HaveFingerprints (first.now ∷ others.now)) }
{
    out.begin_object()?;
    put_text(out, "columnfamily", first.key.table.as_str())?;
    put_text(out, "keyspace", first.key.keyspace.as_str())?;
    out.key("objects")?;
    put_list(alloc, out, first, others)?;
    out.end_object()?;
    Ok(())
}

fn is_same_table_as(first: &FileRecord, file: &FileRecord) -> bool
    ensures { result ≡ is_same_table first.now file.now }
{
    first.key.keyspace.as_str() == file.key.keyspace.as_str()
        && first.key.table.as_str() == file.key.table.as_str()
}

// How many of these files, from the first on, are of the table.
fn run_of(first: &FileRecord, rest: &[FileRecord]) -> usize
    ensures len { result ≡ prefix_len (is_same_table first.now) rest.now }
    ensures bound { result ≤ length rest.now }
{
    for (i, file) in rest.iter().enumerate() {
        if !is_same_table_as(first, file) {
            return i;
        }
    }
    rest.len()
}

fn put_tables(alloc: Global, out: &mut Writer, files: &[FileRecord]) -> Result<(), NoMemory>
    ensures adds { OnOk result (Adds out.old out.new
        (tokens_of_all (map table_data (tables files.now)))) }
    ensures prints { OnOk result (HaveFingerprints files.now) }
{
    let mut rest = files;
    while let [first, after @ ..] = rest {
        let count = run_of(first, after);
        let (others, left) = after.split_at(count);
        put_table(alloc, out, first, others)?;
        rest = left;
    }
    Ok(())
}
