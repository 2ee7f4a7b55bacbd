//! Bytes written in base sixteen, as the tables of cases have them.
#![tactic(auto)]

ghost use Rattle.std.specs.Prelude.{◌≡◌, ◌<◌, IfOk};
ghost use Rattle.hex_words.specs.Words.{digit_value, spelled};

use std::alloc::{AllocError, Global};

/// The value of a digit of base sixteen; 0 of any other byte.
fn digit(byte: u8) -> u8
    ensures value { result ≡ digit_value byte }
    ensures small { result < 16 }
{
    match byte {
        b'0'..=b'9' => byte - b'0',
        b'a'..=b'f' => byte - b'a' + 10,
        b'A'..=b'F' => byte - b'A' + 10,
        _ => 0,
    }
}

/// The bytes that a word of base sixteen spells, two digits each; a last odd digit spells none.
pub fn bytes_of(heap: Global, word: &str) -> Result<Vec<u8>, AllocError>
    ensures { IfOk result (λ bytes. bytes.items ≡ spelled word.now) }
{
    let mut bytes = Vec::new(heap);
    let mut rest = word.as_bytes();
    // Kept: a pattern and the rest behind it. Over `chunks(2)` each piece would be tested for its length again.
    while let [high, low, behind @ ..] = rest {
        bytes.push(digit(*high) * 16 + digit(*low))?;
        rest = behind;
    }
    Ok(bytes)
}

#[cfg(test)]
mod tests {
    use super::*;
    use std::test::Fail;

    #[test]
    fn two_digits_spell_a_byte(rt: HostRuntime) -> Result<(), Fail> {
        let bytes = bytes_of(rt.alloc(), "05c9Ff7")?;
        assert_eq!(rt; bytes.as_slice(), [0x05, 0xc9, 0xff].as_slice());
        Ok(())
    }

    #[test]
    fn a_dash_spells_none(rt: HostRuntime) -> Result<(), Fail> {
        assert_eq!(rt; bytes_of(rt.alloc(), "-")?.len(), 0);
        Ok(())
    }
}
