//! Column files, pages and refusals as lines of text.
#![tactic(auto)]

pub mod listing;

ghost use Rattle.std.specs.Prelude.{◌≡◌, IfOk, string_bytes};
ghost use Rattle.page.specs.Coming.{contents_of};
ghost use Rattle.page.specs.Words.{source_words, making_words};
ghost use Rattle.page_text.specs.Text.{header_text, page_as_text, end_text, broken_text, refused_text};

use column_file::ColumnFile;
use page::fault::{MakingFault, SourceFault};
use page::page::Page;
use std::alloc::{AllocError, Global};

/// The line of a column file: its maxima and its type.
pub fn header_line(heap: Global, file: &ColumnFile) -> Result<String, AllocError>
    ensures { IfOk result (λ t. string_bytes t ≡ header_text file.now) }
{
    let repetition = file.max_rep_level;
    let definition = file.max_def_level;
    let kind = u8::from(file.physical_type);
    format!(in heap; "repetition {repetition} definition {definition} type {kind}")
}

/// The line of a page.
pub fn page_line(heap: Global, number: usize, page: &Page) -> Result<String, AllocError>
    ensures { IfOk result (λ t. string_bytes t ≡ page_as_text number (contents_of page.now)) }
{
    format!(in heap; "{number}: {page}")
}

/// The closing line behind `count` pages.
pub fn end_line(heap: Global, count: usize) -> Result<String, AllocError>
    ensures { IfOk result (λ t. string_bytes t ≡ end_text count) }
{
    format!(in heap; "end pages {count}")
}

/// The closing line where the record after `count` pages is broken.
pub fn broken_line(heap: Global, count: usize, cause: &str) -> Result<String, AllocError>
    ensures { IfOk result (λ t. string_bytes t ≡ broken_text count cause.now) }
{
    format!(in heap; "refused 1 page {count}: {cause}")
}

/// The closing line where nothing could be made.
pub fn refused_line(heap: Global, cause: &str) -> Result<String, AllocError>
    ensures { IfOk result (λ t. string_bytes t ≡ refused_text cause.now) }
{
    format!(in heap; "refused 14: {cause}")
}

/// Why a record is broken, in words.
pub fn source_cause(fault: SourceFault) -> &'static str
    ensures { result.now ≡ source_words fault }
{
    SourceFault::as_str(fault)
}

/// Why nothing could be made, in words.
pub fn making_cause(fault: MakingFault) -> &'static str
    ensures { result.now ≡ making_words fault }
{
    MakingFault::as_str(fault)
}
