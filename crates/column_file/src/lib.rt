//! The file in which a column comes to our programs.
#![tactic(auto)]

ghost use Rattle.std.specs.Prelude.{◌≡◌};
ghost use Rattle.page.specs.Coming.{made_of};
ghost use Rattle.column_file.specs.ColumnFile.{file_of, file_made, type_made, type_number};

use page::fault::MakingFault;

/// The type of a column's values.
#[derive(Clone, Copy)]
pub enum PhysicalType {
    Boolean,
    Int32,
    Int64,
}

/// A column file, taken apart: the two maxima, the type, and the lent bytes of strip and data.
#[derive(Clone, Copy)]
pub struct ColumnFile<'a> {
    pub max_rep_level: u8,
    pub max_def_level: u8,
    pub physical_type: PhysicalType,
    pub strip: &'a [u8],
    pub data: &'a [u8],
}

impl TryFrom<u8> for PhysicalType {
    type Error = MakingFault;

    ghost try_from_gives = { λ t r. r ≡ type_made t };

    fn try_from(byte: u8) -> Result<PhysicalType, MakingFault> {
        match byte {
            0 => Ok(PhysicalType::Boolean),
            1 => Ok(PhysicalType::Int32),
            2 => Ok(PhysicalType::Int64),
            other => Err(MakingFault::FileType(other)),
        }
    }
}

impl From<PhysicalType> for u8 {
    ghost from_gives = { λ t r. r ≡ type_number t };

    fn from(physical_type: PhysicalType) -> u8 {
        match physical_type {
            PhysicalType::Boolean => 0,
            PhysicalType::Int32 => 1,
            PhysicalType::Int64 => 2,
        }
    }
}

impl<'a> ColumnFile<'a> {
    /// Takes a column file apart; refuses one of another form.
    pub fn parse(bytes: &'a [u8]) -> Result<ColumnFile<'a>, MakingFault>
        ensures { made_of file_of result ≡ file_made bytes.now }
    {
        let [
            max_rep_level,
            max_def_level,
            kind,
            s0,
            s1,
            s2,
            s3,
            rest @ ..,
        ] = bytes
        else {
            return Err(MakingFault::FileTooShort);
        };
        let physical_type = PhysicalType::try_from(*kind)?;
        let length = u32::from_le_bytes([*s0, *s1, *s2, *s3]) as usize;
        let (strip, data) = rest.split_at_checked(length).ok_or(MakingFault::FileStrip)?;
        Ok(ColumnFile {
            max_rep_level: *max_rep_level,
            max_def_level: *max_def_level,
            physical_type,
            strip,
            data,
        })
    }
}
