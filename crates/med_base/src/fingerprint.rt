// The length and the MD5 of bytes.
ghost use Rattle.std.specs.Prelude.{◌≡◌, IfOk, string_bytes};
ghost use Rattle.hex.specs.Hex.{encode_lower};
ghost use Rattle.med_base.specs.Fingerprint.{fingerprint_of};

use crate::NoMemory;
use md5::{Digest, Md5};
use std::alloc::Global;

/// What a manifest records of a file: its size in bytes, and its MD5 (RFC 1321).
#[derive(Clone, Copy, Debug, PartialEq, Eq)]
pub struct Fingerprint {
    pub size: u64,
    pub md5: [u8; 16],
}

impl Fingerprint {
    /// The fingerprint of these bytes. It takes no memory.
    pub fn of(bytes: &[u8]) -> Fingerprint
        ensures { result ≡ fingerprint_of bytes.now }
    {
        Fingerprint {
            size: bytes.len() as u64,
            md5: Md5::digest(bytes),
        }
    }
}

/// The digest as 32 hexadecimal digits in lower case.
pub fn md5_text(alloc: Global, md5: &[u8; 16]) -> Result<String, NoMemory>
    ensures { IfOk result (λ text. string_bytes text ≡ encode_lower md5.now) }
{
    Ok(hex::encode(alloc, md5.as_slice())?)
}
