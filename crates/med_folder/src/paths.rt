// Paths as texts.
ghost use Rattle.std.specs.Prelude.{◌≡◌, ◌++◌, IfOk, codes, position, string_bytes};
ghost use Rattle.std.specs.List.{list_all};
ghost use Rattle.med_base.specs.Prefix.{parts};
ghost use Rattle.med_folder.specs.Place.{is_separator, is_name, is_unfinished, is_object_path, IsParent};

use med_base::cut_at;
use std::alloc::{AllocError, Global};

/// The folder of unfinished files, beside the objects.
pub(crate) const UNFINISHED: &str = ".medusa-tmp";

fn is_separator(byte: u8) -> bool
    ensures { result ≡ is_separator byte }
{
    byte == b'/' || byte == 0
}

fn first_separator(text: &[u8]) -> Option<usize>
    ensures { result ≡ position is_separator text.now }
{
    text.iter().position(|b| is_separator(*b))
}

/// Whether a text can be a name in a folder.
pub(crate) fn is_name(text: &[u8]) -> bool
    ensures { result ≡ is_name text.now }
{
    !(text.is_empty() || text == b".".as_slice() || text == b"..".as_slice())
        && first_separator(text).is_none()
}

/// Whether a path is names joined by slashes, none of them a step within the tree.
pub(crate) fn has_plain_parts(path: &[u8]) -> bool
    ensures { result ≡ list_all is_name (parts path.now) }
{
    let mut rest = Some(path);
    'parts: while let Some(left) = rest {
        let (part, after) = cut_at(left, b'/');
        if !is_name(part) {
            return false;
        }
        rest = after;
    }
    true
}

/// Whether a path is that of the folder of unfinished files, or below it.
pub(crate) fn is_unfinished(path: &[u8]) -> bool
    ensures { result ≡ is_unfinished path.now }
{
    path == b".medusa-tmp".as_slice() || path.starts_with(b".medusa-tmp/".as_slice())
}

/// Whether a path below the bucket's folder can be that of an object.
pub(crate) fn is_object_path(path: &[u8]) -> bool
    ensures { result ≡ is_object_path path.now }
{
    has_plain_parts(path) && !is_unfinished(path)
}

/// `folder/name`.
pub(crate) fn joined(alloc: Global, folder: &str, name: &str) -> Result<String, AllocError>
    ensures { IfOk result (λ path. string_bytes path ≡ folder.now ++ codes "/" ++ name.now) }
{
    let mut path = String::from_str(alloc, folder)?;
    path.push('/')?;
    path.push_str(name)?;
    Ok(path)
}

/// What stands before the last slash, or the empty text.
pub(crate) fn parent_of(path: &str) -> &str
    ensures { IsParent path.now result.now }
{
    match path.rfind('/') {
        Some(at) => &path[..at],
        None => "",
    }
}
