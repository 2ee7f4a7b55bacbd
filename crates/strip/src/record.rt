//! The records of a strip.
ghost use Rattle.std.specs.Prelude.{◌≡◌, ◌+◌, ◌≤◌, length, IfOk};
ghost use Rattle.page.specs.Bytes.{le4};
ghost use Rattle.strip.specs.Strip.{dictionary_body, v1_body, v2_body, page_in, span_of};
ghost use Rattle.strip.specs.Records.{taken_of, whole_of, first_of, behind, page_of, told_of, part_of, parted, rested};

use page::fault::SourceFault;
use page::page::{Page, PageMetadata};

/// Where the bytes of a page lie in the data.
#[derive(Clone, Copy)]
pub(crate) struct Span {
    pub(crate) place: u32,
    pub(crate) length: u32,
}

/// A record: where a page's bytes lie, and then the page's own fields.
// Kept: encodings as numbers, as in `Page`.
#[derive(Clone, Copy)]
pub(crate) enum Record {
    Dictionary {
        span: Span,
        num_values: u32,
        encoding: u8,
    },
    V1 {
        span: Span,
        num_values: u32,
        encoding: u8,
        def_level_encoding: u8,
        rep_level_encoding: u8,
    },
    V2 {
        span: Span,
        num_values: u32,
        num_nulls: u32,
        num_rows: u32,
        rep_levels_byte_len: u32,
        def_levels_byte_len: u32,
        encoding: u8,
    },
}

/// The number in the four bytes from the `at`-th on, lowest first.
fn u32_at(bytes: &[u8], at: usize) -> u32
    requires { at + 4 ≤ length bytes.now }
    ensures { result ≡ le4 bytes.now at }
{
    u32::from_le_bytes(*bytes[at..].first_chunk().unwrap())
}

impl Span {
    /// The span that a body begins with.
    fn of(body: &[u8]) -> Span
        requires { 8 ≤ length body.now }
        ensures { result ≡ span_of body.now }
    {
        Span {
            place: u32_at(body, 0),
            length: u32_at(body, 4),
        }
    }

    /// The bytes of the data that the span names.
    fn cut(self, data: &[u8]) -> Result<&[u8], SourceFault>
        ensures { part_of result ≡ parted «data».now self.place self.length }
    {
        let from = self.place as usize;
        let to = from + self.length as usize;
        data.get(from..to).ok_or(SourceFault::OutsideData)
    }
}

/// Takes the first record off a strip.
pub(crate) fn take_record(strip: &[u8]) -> Result<Option<(Record, &[u8])>, SourceFault>
    ensures { taken_of result ≡ first_of strip.now }
{
    let Some((kind, body)) = strip.split_first() else {
        return Ok(None);
    };
    Ok(Some(match *kind {
        0 => dictionary(body)?,
        1 => v1(body)?,
        2 => v2(body)?,
        kind => return Err(SourceFault::UnknownKind(kind)),
    }))
}

/// What stands behind a body of `size` bytes.
fn rest_of(body: &[u8], size: usize) -> Result<&[u8], SourceFault>
    ensures value { part_of result ≡ rested body.now size }
    ensures whole { IfOk result (λ _. size ≤ length body.now) }
{
    body.get(size..).ok_or(SourceFault::CutRecord)
}

/// A dictionary's body.
fn dictionary(body: &[u8]) -> Result<(Record, &[u8]), SourceFault>
    ensures { whole_of result ≡ behind (dictionary_body body.now) body.now }
{
    let rest = rest_of(body, 13)?;
    let record = Record::Dictionary {
        span: Span::of(body),
        num_values: u32_at(body, 8),
        encoding: body[12],
    };
    Ok((record, rest))
}

/// The body of a V1 page.
fn v1(body: &[u8]) -> Result<(Record, &[u8]), SourceFault>
    ensures { whole_of result ≡ behind (v1_body body.now) body.now }
{
    let rest = rest_of(body, 15)?;
    let record = Record::V1 {
        span: Span::of(body),
        num_values: u32_at(body, 8),
        encoding: body[12],
        def_level_encoding: body[13],
        rep_level_encoding: body[14],
    };
    Ok((record, rest))
}

/// The body of a V2 page.
fn v2(body: &[u8]) -> Result<(Record, &[u8]), SourceFault>
    ensures { whole_of result ≡ behind (v2_body body.now) body.now }
{
    let rest = rest_of(body, 29)?;
    let record = Record::V2 {
        span: Span::of(body),
        num_values: u32_at(body, 8),
        num_nulls: u32_at(body, 12),
        num_rows: u32_at(body, 16),
        rep_levels_byte_len: u32_at(body, 20),
        def_levels_byte_len: u32_at(body, 24),
        encoding: body[28],
    };
    Ok((record, rest))
}

/// The page that a record names in the data.
pub(crate) fn page_in(data: &[u8], record: Record) -> Result<Page<'_>, SourceFault>
    ensures { page_of result ≡ page_in «data».now «record» }
{
    Ok(match record {
        Record::Dictionary {
            span,
            num_values,
            encoding,
        } => Page::DictionaryPage {
            place: span.place as usize,
            buf: span.cut(data)?,
            num_values,
            encoding,
        },
        Record::V1 {
            span,
            num_values,
            encoding,
            def_level_encoding,
            rep_level_encoding,
        } => Page::DataPage {
            place: span.place as usize,
            buf: span.cut(data)?,
            num_values,
            encoding,
            def_level_encoding,
            rep_level_encoding,
        },
        Record::V2 {
            span,
            num_values,
            num_nulls,
            num_rows,
            rep_levels_byte_len,
            def_levels_byte_len,
            encoding,
        } => Page::DataPageV2 {
            place: span.place as usize,
            buf: span.cut(data)?,
            num_values,
            num_nulls,
            num_rows,
            rep_levels_byte_len,
            def_levels_byte_len,
            encoding,
        },
    })
}

/// What a peek tells of a strip's page.
pub(crate) fn metadata(page: &Page) -> PageMetadata
    ensures { result ≡ told_of page.now }
{
    let (num_rows, num_levels, is_dict) = match *page {
        Page::DictionaryPage { .. } => (None, None, true),
        Page::DataPage { num_values, .. } => (None, Some(num_values), false),
        Page::DataPageV2 {
            num_values,
            num_rows,
            ..
        } => (Some(num_rows), Some(num_values), false),
    };
    PageMetadata {
        num_rows,
        num_levels,
        is_dict,
    }
}
