//! Bytes as printable text.
ghost use Rattle.std.specs.Prelude.{◌≡◌, ◌<◌, IfOk, flat_map};
ghost use Rattle.mig_tree.specs.Spelling.{hex_digit, spelled_byte};

use crate::Memory;
use std::alloc::Global;

fn hex_digit(n: u8) -> u8
    requires { n < 16 }
    ensures { result ≡ hex_digit n }
{
    if n < 10 { b'0' + n } else { b'A' + (n - 10) }
}

/// The bytes as printable text: each byte below 0x21 or above 0x7e, and each `%` and `/`, becomes `%` and two upper-case hexadecimal digits.
///
/// The rule is this project's own, after percent encoding (RFC 3986, section 2.1).
pub fn spell(alloc: Global, bytes: &[u8]) -> Result<Vec<u8>, Memory>
    ensures { IfOk result (λ out. out.items ≡ flat_map spelled_byte bytes.now) }
{
    let mut out = Vec::new(alloc);
    for byte in bytes {
        let b = *byte;
        if b < 0x21 || b > 0x7e || b == b'%' || b == b'/' {
            out.push(b'%')?;
            out.push(hex_digit(b / 16))?;
            out.push(hex_digit(b % 16))?;
        } else {
            out.push(b)?;
        }
    }
    Ok(out)
}
