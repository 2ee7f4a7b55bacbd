//! What a source hands out.
ghost use Rattle.std.specs.Prelude.{Some};
ghost use Rattle.page.specs.Coming.{contents_of};
ghost use Rattle.page.specs.Words.{page_words, fields_words};

use std::fmt;

/// A page, with its bytes lent by the source, uncopied. `place` is where they begin in the
/// source's data: a listing shows it, no decoder reads it. Encodings are the bytes of the page's
/// header as they are, known or not.
// Kept: encodings as numbers, for they are the bytes of a header, known or not.
#[derive(Clone, Copy)]
pub enum Page<'a> {
    /// The values that data pages of encodings 2 and 8 look up.
    DictionaryPage {
        place: usize,
        buf: &'a [u8],
        num_values: u32,
        encoding: u8,
    },
    /// A data page, version 1: repetition levels, definition levels and values in one body.
    DataPage {
        place: usize,
        buf: &'a [u8],
        num_values: u32,
        encoding: u8,
        def_level_encoding: u8,
        rep_level_encoding: u8,
    },
    /// A data page, version 2: its header tells its rows and where its levels end.
    DataPageV2 {
        place: usize,
        buf: &'a [u8],
        num_values: u32,
        num_nulls: u32,
        num_rows: u32,
        rep_levels_byte_len: u32,
        def_levels_byte_len: u32,
        encoding: u8,
    },
}

/// What a peek tells of the next page.
#[derive(Clone, Copy)]
pub struct PageMetadata {
    /// How many records begin in the page, if it is told.
    pub num_rows: Option<u32>,
    /// How many levels the page has, if it is told.
    pub num_levels: Option<u32>,
    /// Whether the page is a dictionary.
    // Kept: a flag, as the Rust crate has it; an enum in its place would repeat the two counts in each variant.
    pub is_dict: bool,
}

impl fmt::Display for Page<'_> {
    ghost output = { λ p. Some (page_words (contents_of p)) };

    fn fmt<W: fmt::Write>(&self, f: &mut fmt::Formatter<W>) -> fmt::Result {
        let fields = Fields(*self);
        let (kind, place, buf) = match *self {
            Page::DictionaryPage { place, buf, .. } => ("dictionary", place, buf),
            Page::DataPage { place, buf, .. } => ("v1", place, buf),
            Page::DataPageV2 { place, buf, .. } => ("v2", place, buf),
        };
        let length = buf.len();
        write!(f, "{kind} place {place} length {length} {fields}")
    }
}

/// What each kind of page has of its own.
#[derive(Clone, Copy)]
struct Fields<'a>(Page<'a>);

impl fmt::Display for Fields<'_> {
    ghost output = { λ p. Some (fields_words (contents_of p.0)) };

    fn fmt<W: fmt::Write>(&self, f: &mut fmt::Formatter<W>) -> fmt::Result {
        match self.0 {
            Page::DictionaryPage {
                num_values,
                encoding,
                ..
            } => write!(f, "values {num_values} encoding {encoding}"),
            Page::DataPage {
                num_values,
                encoding,
                def_level_encoding,
                rep_level_encoding,
                ..
            } => write!(
                f,
                "levels {num_values} encoding {encoding} definition {def_level_encoding} repetition {rep_level_encoding}"
            ),
            Page::DataPageV2 {
                num_values,
                num_nulls,
                num_rows,
                rep_levels_byte_len,
                def_levels_byte_len,
                encoding,
                ..
            } => write!(
                f,
                "levels {num_values} nulls {num_nulls} rows {num_rows} repetition-bytes {rep_levels_byte_len} definition-bytes {def_levels_byte_len} encoding {encoding}"
            ),
        }
    }
}
