//! The level bytes at the front of a page.

ghost use Rattle.std.specs.Prelude.{◌≡◌};
ghost use Rattle.level_bytes.specs.Cuts.{front, by_length, packed_bytes, v1_level, v2_levels, cut_of, parts_of};

use crate::encoding::LevelEncoding;
use crate::fault::LevelFault;
use crate::width::level_width;

/// Cuts the level bytes of a V1 page off what is left of it: the level bytes, and what is behind
/// them.
pub fn parse_v1_level<'a>(
    max_level: i16,
    num_levels: u32,
    encoding: u8,
    bytes: &'a [u8],
) -> Result<(&'a [u8], &'a [u8]), LevelFault>
    ensures { cut_of result ≡ v1_level max_level num_levels encoding bytes.now }
{
    if max_level <= 0 {
        return cut_front(bytes, 0);
    }
    match LevelEncoding::try_from(encoding)? {
        LevelEncoding::Rle => cut_told(bytes),
        LevelEncoding::BitPacked => {
            cut_front(bytes, packed_len(num_levels, level_width(max_level)))
        }
    }
}

/// Cuts the level bytes of a V2 page off, by their told lengths: the repetition levels, the
/// definition levels, and the values.
pub fn split_v2_levels<'a>(
    rep_len: u32,
    def_len: u32,
    bytes: &'a [u8],
) -> Result<(&'a [u8], &'a [u8], &'a [u8]), LevelFault>
    ensures { parts_of result ≡ v2_levels rep_len def_len bytes.now }
{
    let (levels, values) = cut_front(bytes, rep_len as usize + def_len as usize)?;
    let (rep, def) = levels.split_at(rep_len as usize);
    Ok((rep, def, values))
}

/// Cuts the first `n` bytes off.
fn cut_front<'a>(bytes: &'a [u8], n: usize) -> Result<(&'a [u8], &'a [u8]), LevelFault>
    ensures { cut_of result ≡ front n bytes.now }
{
    if bytes.len() < n {
        return Err(LevelFault::Past);
    }
    Ok(bytes.split_at(n))
}

/// Cuts off the level bytes that stand behind their length.
fn cut_told<'a>(bytes: &'a [u8]) -> Result<(&'a [u8], &'a [u8]), LevelFault>
    ensures { cut_of result ≡ by_length bytes.now }
{
    let Some((told, rest)) = bytes.split_first_chunk::<4>() else {
        return Err(LevelFault::Past);
    };
    match i32::from_le_bytes(*told) {
        -4..=-1 => Err(LevelFault::NegativeLength),
        len => {
            let n = usize::try_from(len).map_err(|_| LevelFault::Past)?;
            cut_front(rest, n)
        }
    }
}

/// The bytes that hold so many packed levels.
fn packed_len(levels: u32, width: u32) -> usize
    ensures { result ≡ packed_bytes levels width }
{
    (levels as usize * width as usize).div_ceil(8)
}
