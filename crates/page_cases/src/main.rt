//! Runs a table of sources and calls from standard input, one case a line, and prints each reply.
//!
//! A case is a source and then the calls: `strip RECORDS DATA`, `raw WIDTH COUNT VALUES`, or
//! `chain` and two of these; bytes are in base sixteen, and `-` is none. The calls are letters:
//! `p` peeks, `g` gets, `s` skips, `b` asks for the record boundary, `l` lists to the end. A case
//! `file BYTES` takes a column file apart.
#![tactic(auto)]

mod source;

use crate::source::Source;
use column_file::ColumnFile;
use hex_words::bytes_of;
use page::chain::Chain;
use page::fault::{MakingFault, SourceFault};
use page::page::Page;
use page::reader::{PageReader, at_record_boundary};
use page_text::listing::print_listing;
use page_text::{broken_line, header_line, making_cause, page_line, refused_line, source_cause};
use raw::Raw;
use std::alloc::{AllocError, Global};
use std::io;
use strip::source::Strip;

/// A source as its words have it.
#[derive(Drop)]
enum Words {
    Strip {
        records: Vec<u8>,
        data: Vec<u8>,
    },
    Raw {
        width: usize,
        count: usize,
        values: Vec<u8>,
    },
}

impl Words {
    /// Takes the words of a source off the front of `words`; others are a source of no width.
    // Kept: raw values of no width for a line without the words of a source; an Option here would change what it prints, their refusal.
    fn take<'w>(heap: Global, words: &'w [&'w str]) -> Result<(Words, &'w [&'w str]), AllocError> {
        match words {
            ["strip", records, data, rest @ ..] => {
                let records = bytes_of(heap, records)?;
                let data = bytes_of(heap, data)?;
                Ok((Words::Strip { records, data }, rest))
            }
            ["raw", width, count, values, rest @ ..] => {
                let width = width.parse::<usize>().unwrap_or(0);
                let count = count.parse::<usize>().unwrap_or(0);
                let values = bytes_of(heap, values)?;
                Ok((
                    Words::Raw {
                        width,
                        count,
                        values,
                    },
                    rest,
                ))
            }
            rest => {
                let values = Vec::new(heap);
                Ok((
                    Words::Raw {
                        width: 0,
                        count: 0,
                        values,
                    },
                    rest,
                ))
            }
        }
    }

    /// The source, if it can be made.
    fn source(&self) -> Result<Source<'_>, MakingFault> {
        match self {
            Words::Strip { records, data } => Ok(Source::Strip(Strip::new(
                records.as_slice(),
                data.as_slice(),
            )?)),
            Words::Raw {
                width,
                count,
                values,
            } => Ok(Source::Raw(Raw::new(values.as_slice(), *width, *count)?)),
        }
    }
}

/// Prints a page's line.
fn print_page(rt: &HostRuntime, number: usize, page: &Page) -> io::Result<()> {
    rt.println(page_line(rt.alloc(), number, page)?)
}

/// Prints what a call answers, or hands on its fault.
fn reply<'a, S: PageReader<'a>>(
    rt: &HostRuntime,
    source: &mut S,
    number: usize,
    letter: u8,
) -> Result<io::Result<()>, SourceFault> {
    Ok(match letter {
        b'p' => match source.peek_next_page()? {
            Some(m) => {
                let dictionary = m.is_dict;
                let rows = m.num_rows;
                let levels = m.num_levels;
                println!(rt; "dictionary {dictionary} rows {rows:?} levels {levels:?}")
            }
            None => println!(rt; "none"),
        },
        b'g' => match source.get_next_page()? {
            Some(page) => print_page(rt, number, &page),
            None => println!(rt; "none"),
        },
        b's' => {
            source.skip_next_page()?;
            println!(rt; "skipped")
        }
        b'b' => {
            let boundary = at_record_boundary(source)?;
            println!(rt; "boundary {boundary}")
        }
        _ => print_listing(rt, rt.alloc(), source),
    })
}

/// Makes each call on a source, or tells why there is none.
fn calls<'a, S: PageReader<'a> + Drop>(
    rt: &HostRuntime,
    source: Result<S, MakingFault>,
    letters: &str,
) -> io::Result<()> {
    let heap = rt.alloc();
    match source {
        Ok(mut source) => {
            for (number, letter) in letters.bytes().enumerate() {
                match reply(rt, &mut source, number, letter) {
                    Ok(printed) => printed?,
                    Err(fault) => rt.println(broken_line(heap, number, source_cause(fault))?)?,
                }
            }
            Ok(())
        }
        Err(fault) => rt.println(refused_line(heap, making_cause(fault))?),
    }
}

/// The chain of two sources, if both are made.
fn chained<'w>(
    first: &'w Words,
    second: &'w Words,
) -> Result<Chain<Source<'w>, Source<'w>>, MakingFault> {
    Ok(Chain::new(first.source()?, second.source()?))
}

/// A case of a column file.
fn file(rt: &HostRuntime, bytes: &[u8]) -> io::Result<()> {
    let heap = rt.alloc();
    match ColumnFile::parse(bytes) {
        Ok(file) => {
            rt.println(header_line(heap, &file)?)?;
            let strip = file.strip;
            let data = file.data;
            println!(rt; "strip {strip:?} data {data:?}")
        }
        Err(fault) => rt.println(refused_line(heap, making_cause(fault))?),
    }
}

/// A case.
fn case(rt: &HostRuntime, words: &[&str]) -> io::Result<()> {
    let heap = rt.alloc();
    match words {
        ["file", bytes] => file(rt, bytes_of(heap, bytes)?.as_slice()),
        ["chain", rest @ ..] => {
            let (first, rest) = Words::take(heap, rest)?;
            let (second, rest) = Words::take(heap, rest)?;
            match rest {
                [letters] => calls(rt, chained(&first, &second), letters),
                _ => println!(rt; "no case"),
            }
        }
        words => {
            let (source, rest) = Words::take(heap, words)?;
            match rest {
                [letters] => calls(rt, source.source(), letters),
                _ => println!(rt; "no case"),
            }
        }
    }
}

fn main(rt: HostRuntime) -> io::Result<()> {
    let heap = rt.alloc();
    for line in rt.lines(heap) {
        let line = line?;
        println!(rt; "{line}")?;
        let words = line.as_str().split(' ').collect::<Vec<&str>>(heap)?;
        case(&rt, words.as_slice())?;
    }
    Ok(())
}
