// A digest read from its text.
ghost use Rattle.std.specs.Prelude.{◌≡◌, List, ℕ, length, IfOk, IfErr};
ghost use Rattle.base64.specs.GeneralPurpose.{encode_of, IsBytes};
ghost use Rattle.base64.specs.Engines.{standard};
ghost use Rattle.med_base.specs.Digest.{SpellsMd5};

use base64::engine::general_purpose::STANDARD;
use hex::FromHex;

/// The text spells no MD5.
#[derive(Clone, Copy, Debug, PartialEq, Eq)]
pub struct BadDigest;

/// The MD5 that a text spells: 32 hexadecimal digits of either case, or the 24 characters of
/// padded base64 (RFC 4648, 4) whose spare bits are zero. It takes no memory.
pub fn read_md5(text: &str) -> Result<[u8; 16], BadDigest>
    ensures ok { IfOk result (SpellsMd5 text.now) }
    ensures err { IfErr result (λ _. (md5 : List ℕ) → SpellsMd5 text.now md5 → ⊥) }
{
    if text.len() == 32 {
        return match <[u8; 16] as FromHex>::from_hex(text) {
            Ok(md5) => Ok(md5),
            Err(_) => Err(BadDigest),
        };
    }
    from_base64(text)
}

fn from_base64(text: &str) -> Result<[u8; 16], BadDigest>
    ensures ok { IfOk result (λ md5. text.now ≡ encode_of standard md5) }
    ensures err { IfErr result (λ _. (md5 : List ℕ) → length md5 ≡ 16 → IsBytes md5
        → text.now ≡ encode_of standard md5 → ⊥) }
{
    if text.len() != 24 {
        return Err(BadDigest);
    }
    // the decoder asks for room for 18 bytes, whatever the padding says
    let mut room = [0u8; 18];
    let Ok(count) = STANDARD.decode_slice(text.as_bytes(), &mut room) else {
        return Err(BadDigest);
    };
    if count != 16 {
        return Err(BadDigest);
    }
    let mut md5 = [0u8; 16];
    md5.copy_from_slice(&room[..16]);
    Ok(md5)
}
