//! Runs a table of level decoders and calls from standard input, one case a line, and prints each
//! with its answers and what the area holds afterwards.
//!
//! A case is `rep`, `def` or `mask`, the maximum, the encoding (`-` where no data come first), the
//! bytes in base sixteen (`-` is none), the room of the area, and the calls, joined by commas: `r:Q:M` reads up to Q records and M
//! levels, `s:Q:M` skips them, `f` flushes, `d:M` reads M definition levels, `k:M` skips them, and
//! `n:ENCODING:BYTES` goes on to other bytes. Both decoders of repetition levels run each case of
//! theirs, and both kinds of definition levels run each of theirs; they must answer alike.
#![tactic(auto)]

use area::area::Area;
use hex_words::bytes_of;
use level::column::ColumnLevelDecoder;
use level::definition::{DefinitionLevelDecoder, DefinitionLevelDecoderImpl, LevelKind};
use level::encoding::LevelEncoding;
use level::lookahead::RepetitionLevelDecoderImpl;
use level::refusal::LevelRefusal;
use level::repetition::{PlainRepetitionDecoder, RepetitionLevelDecoder};
use std::alloc::{AllocError, Global};
use std::io;

/// A call of a decoder.
#[derive(Drop)]
enum Call {
    ReadRecords {
        records: usize,
        levels: usize,
    },
    SkipRecords {
        records: usize,
        levels: usize,
    },
    ReadLevels(usize),
    SkipLevels(usize),
    Flush,
    Data {
        encoding: LevelEncoding,
        bytes: Vec<u8>,
    },
}

/// The encoding of levels that a word tells, if it is one.
fn encoding_of(word: &str) -> Option<LevelEncoding> {
    word.parse::<u8>()
        .ok()
        .and_then(|number| LevelEncoding::try_from(number).ok())
}

/// The number in a word, 0 where it is none.
fn number(word: &str) -> usize {
    word.parse::<usize>().unwrap_or(0)
}

/// The call that goes on to the bytes of a word, if the encoding is one of levels.
fn data_of(heap: Global, encoding: &str, bytes: &str) -> Result<Option<Call>, AllocError> {
    let bytes = bytes_of(heap, bytes)?;
    Ok(encoding_of(encoding).map(|encoding| Call::Data { encoding, bytes }))
}

/// The call that a word spells, if it is one.
fn call_of(heap: Global, word: &str) -> Result<Option<Call>, AllocError> {
    let words = word.split(':').collect::<Vec<&str>>(heap)?;
    Ok(Some(match words.as_slice() {
        ["r", records, levels] => Call::ReadRecords {
            records: number(records),
            levels: number(levels),
        },
        ["s", records, levels] => Call::SkipRecords {
            records: number(records),
            levels: number(levels),
        },
        ["d", levels] => Call::ReadLevels(number(levels)),
        ["k", levels] => Call::SkipLevels(number(levels)),
        ["f"] => Call::Flush,
        ["n", encoding, bytes] => return data_of(heap, encoding, bytes),
        _ => return Ok(None),
    }))
}

/// The calls that words spell, behind the first data where there are any.
fn calls_of(
    heap: Global,
    encoding: &str,
    bytes: &str,
    spelled: &str,
) -> Result<Option<Vec<Call>>, AllocError> {
    let mut calls = Vec::new(heap);
    if encoding != "-" {
        let Some(data) = data_of(heap, encoding, bytes)? else {
            return Ok(None);
        };
        calls.push(data)?;
    }
    for word in spelled.split(',') {
        let Some(call) = call_of(heap, word)? else {
            return Ok(None);
        };
        calls.push(call)?;
    }
    Ok(Some(calls))
}

/// Appends what a call for levels answers.
fn tell(out: &mut String, reply: Result<(usize, usize), LevelRefusal>) -> Result<(), AllocError> {
    match reply {
        Ok((told, taken)) => write!(out, " {told} {taken};"),
        Err(LevelRefusal::NoRoom) => write!(out, " refused 16;"),
        Err(LevelRefusal::Fault(fault)) => {
            let code = fault.number();
            write!(out, " refused {code};")
        }
    }
}

/// What a decoder answers, and its area afterwards.
#[derive(Drop, PartialEq)]
struct Outcome<T> {
    answers: String,
    filled: usize,
    cells: Vec<T>,
}

impl<T: Copy + std::fmt::Display> Outcome<T> {
    /// Whether a decoder into other elements answered the same, and filled as many.
    fn is_alike<U>(&self, other: &Outcome<U>) -> bool {
        self.answers == other.answers && self.filled == other.filled
    }

    /// Prints a case with its outcome.
    fn print(&self, rt: &HostRuntime, line: &str) -> io::Result<()> {
        let answers = self.answers.as_str();
        let filled = self.filled;
        print!(rt; "{line} ->{answers} {filled} of")?;
        for cell in self.cells.as_slice() {
            print!(rt; " {cell}")?;
        }
        println!(rt; "")
    }
}

/// A decoder's maximum, the room of its area, and the calls on it.
#[derive(Drop)]
struct Case {
    maximum: i16,
    room: usize,
    calls: Vec<Call>,
}

impl Case {
    /// Makes the calls on a decoder of repetition levels.
    // Kept: the set-up and the end stand in `definition` too; what lies between calls other methods, with other replies.
    fn repetition<'a, D: RepetitionLevelDecoder<'a> + Drop>(
        &'a self,
        heap: Global,
    ) -> Result<Outcome<i16>, AllocError> {
        let mut answers = String::new(heap);
        let mut cells = vec![in heap; 7i16; self.room]?;
        let mut area = Area::new(cells.as_mut_slice());
        let mut decoder = D::new(self.maximum);
        for call in self.calls.as_slice() {
            match call {
                Call::ReadRecords { records, levels } => {
                    let reply = decoder.read_rep_levels(&mut area, *records, *levels);
                    tell(&mut answers, reply)?;
                }
                Call::SkipRecords { records, levels } => {
                    tell(&mut answers, decoder.skip_rep_levels(*records, *levels))?;
                }
                Call::Flush => {
                    let opened = decoder.flush_partial();
                    write!(answers, "{}", if opened { " open;" } else { " closed;" })?;
                }
                Call::Data { encoding, bytes } => {
                    decoder.set_data(*encoding, bytes.as_slice());
                    write!(answers, " data;")?;
                }
                _ => {}
            }
        }
        let filled = area.len();
        Ok(Outcome {
            answers,
            filled,
            cells,
        })
    }

    /// Makes the calls on a decoder of definition levels, over an area of `fill`.
    fn definition<L: LevelKind + Copy>(
        &self,
        heap: Global,
        fill: L,
    ) -> Result<Outcome<L>, AllocError> {
        let mut answers = String::new(heap);
        let mut cells = vec![in heap; fill; self.room]?;
        let mut area = Area::new(cells.as_mut_slice());
        let mut decoder = DefinitionLevelDecoderImpl::<L>::new(self.maximum);
        for call in self.calls.as_slice() {
            match call {
                Call::ReadLevels(levels) => {
                    let reply = decoder.read_def_levels(&mut area, *levels);
                    tell(&mut answers, reply)?;
                }
                Call::SkipLevels(levels) => tell(&mut answers, decoder.skip_def_levels(*levels))?,
                Call::Data { encoding, bytes } => {
                    decoder.set_data(*encoding, bytes.as_slice());
                    write!(answers, " data;")?;
                }
                _ => {}
            }
        }
        let filled = area.len();
        Ok(Outcome {
            answers,
            filled,
            cells,
        })
    }

    /// Runs the case on the decoders of a kind; both of repetition levels, and both kinds of definition levels, must answer alike.
    fn run(&self, rt: &HostRuntime, line: &str, kind: &str) -> io::Result<()> {
        let heap = rt.alloc();
        match kind {
            "rep" => {
                let plain = self.repetition::<PlainRepetitionDecoder>(heap)?;
                let ahead = self.repetition::<RepetitionLevelDecoderImpl>(heap)?;
                if ahead != plain {
                    println!(rt; "the decoder that works ahead answers otherwise:")?;
                    ahead.print(rt, line)?;
                }
                plain.print(rt, line)
            }
            "mask" | "def" => {
                let mask = self.definition(heap, true)?;
                let levels = self.definition(heap, 7i16)?;
                if !mask.is_alike(&levels) {
                    println!(rt; "levels and a mask answer otherwise:")?;
                    mask.print(rt, line)?;
                    levels.print(rt, line)?;
                }
                if kind == "mask" {
                    mask.print(rt, line)
                } else {
                    levels.print(rt, line)
                }
            }
            _ => println!(rt; "{line}: no case"),
        }
    }
}

/// Runs the case that a line spells.
fn run_line(rt: &HostRuntime, line: &str, words: &[&str]) -> io::Result<()> {
    let [kind, maximum, encoding, bytes, room, spelled] = words else {
        return println!(rt; "{line}: no case");
    };
    let Some(calls) = calls_of(rt.alloc(), encoding, bytes, spelled)? else {
        return println!(rt; "{line}: no case");
    };
    let case = Case {
        maximum: maximum.parse::<i16>().unwrap_or(0),
        room: number(room),
        calls,
    };
    case.run(rt, line, kind)
}

fn main(rt: HostRuntime) -> io::Result<()> {
    let heap = rt.alloc();
    for line in rt.lines(heap) {
        let line = line?;
        let words = line.as_str().split(' ').collect::<Vec<&str>>(heap)?;
        run_line(&rt, line.as_str(), words.as_slice())?;
    }
    Ok(())
}
