//! Lists the pages of a column file.
#![tactic(auto)]

use column_file::ColumnFile;
use page::fault::MakingFault;
use page_text::listing::print_listing;
use page_text::{header_line, making_cause, refused_line};
use std::{env, fs, io};
use strip::source::Strip;

fn main(rt: HostRuntime) -> io::Result<()> {
    // The first word is the program's own name.
    match env::args(&rt)?.nth(1) {
        Some(path) => match fs::read(&rt, path.as_str()) {
            Ok(bytes) => list(&rt, bytes.as_slice()),
            Err(_) => println!(rt; "refused 14: the file cannot be read"),
        },
        None => println!(rt; "usage: list_pages COLUMN-FILE"),
    }
}

/// The file, and the source in it.
fn open(bytes: &[u8]) -> Result<(ColumnFile<'_>, Strip<'_>), MakingFault> {
    let file = ColumnFile::parse(bytes)?;
    let source = Strip::new(file.strip, file.data)?;
    Ok((file, source))
}

/// Prints the file's line, a line for each page, and the closing line.
fn list(rt: &HostRuntime, bytes: &[u8]) -> io::Result<()> {
    let heap = rt.alloc();
    match open(bytes) {
        Ok((file, mut source)) => {
            rt.println(header_line(heap, &file)?)?;
            print_listing(rt, heap, &mut source)
        }
        Err(fault) => rt.println(refused_line(heap, making_cause(fault))?),
    }
}
