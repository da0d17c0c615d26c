// Digests, by RFC 1321 and RFC 4648.
use med_base::{BadDigest, Fingerprint, md5_text, read_md5};
use std::alloc::Global;

// Whether the fingerprint of the text of a row is its length and its digest: TEXT|DIGEST.
fn has_digest(alloc: Global, row: &str) -> Option<bool> {
    let (text, digest) = row.split_once('|')?;
    let Fingerprint { size, md5 } = Fingerprint::of(text.as_bytes());
    let told = md5_text(alloc, &md5).ok()?;
    Some(size == text.len() as u64 && told.as_str() == digest)
}

/// The examples of RFC 1321, A.5: TEXT|DIGEST.
pub(crate) const DIGESTS: &str = "\
|d41d8cd98f00b204e9800998ecf8427e
a|0cc175b9c0f1b6a831c399e269772661
abc|900150983cd24fb0d6963f7d28e17f72
message digest|f96b697d7cb7938d525a2f31aaf161d0
abcdefghijklmnopqrstuvwxyz|c3fcd3d76192e4007dfb496cca67e13b
ABCDEFGHIJKLMNOPQRSTUVWXYZabcdefghijklmnopqrstuvwxyz0123456789|d174ab98d277d9f5a5611c2c9f419d9f
12345678901234567890123456789012345678901234567890123456789012345678901234567890\
|57edf4a22be3c955ac49da2e2107b67a";

#[test]
fn digests_are_those_of_the_rfc(rt: HostRuntime) {
    for row in DIGESTS.split('\n') {
        assert_eq!(rt; has_digest(rt.alloc(), row), Some(true), "at {row}");
    }
}

const DIGITS_AND_BASE64: &str = "\
900150983cd24fb0d6963f7d28e17f72
900150983CD24FB0D6963F7D28E17F72
900150983cD24fb0d6963F7d28e17f72
kAFQmDzST7DWlj99KOF/cg==";

#[test]
fn a_digest_is_read_from_digits_and_from_base64(rt: HostRuntime) {
    let abc = [
        0x90, 0x01, 0x50, 0x98, 0x3c, 0xd2, 0x4f, 0xb0, 0xd6, 0x96, 0x3f, 0x7d, 0x28, 0xe1, 0x7f,
        0x72,
    ];
    for text in DIGITS_AND_BASE64.split('\n') {
        assert_eq!(rt; read_md5(text), Ok(abc), "at {text}");
    }
}

// The second row is the empty text.
const NO_DIGESTS: &str = "\
900150983cd24fb0d6963f7d28e17f7

900150983cd24fb0d6963f7d28e17f721
900150983cd24fb0d6963f7d28e17f7g
 900150983cd24fb0d6963f7d28e17f7
kAFQmDzST7DWlj99KOF/cg
kAFQmDzST7DWlj99KOF/cg=
kAFQmDzST7DWlj99KOF/ch==
kAFQmDzST7DWlj99KOF_cg==
kAFQmDzST7DWlj99KOF/cgAA
kAFQmDzST7DWlj99KOF/cg==kAFQmDzS";

#[test]
fn any_other_text_is_no_digest(rt: HostRuntime) {
    for text in NO_DIGESTS.split('\n') {
        assert_eq!(rt; read_md5(text), Err(BadDigest), "at {text}");
    }
}
