//! Runs a table of streams from standard input, one case a line, and prints each with its numbers
//! and its end.
//!
//! A case is `hybrid` or `packed`, the width, the limit, the bytes in base sixteen (`-` is none; a
//! capital counts as 0, as all that is no digit), and how many numbers are asked for. Each is read
//! number by number; and then at once, as indexes, as levels and as mask bits, and skipped, which
//! must all agree.
#![tactic(auto)]

use element::number::Number;
use hex_words::bytes_of;
use run::kind::StreamFault;
use run::reader::RunReader;
use std::alloc::{AllocError, Global};
use std::{fmt, io};
use stream::width::Width;

/// How the numbers that were asked for ended.
// Kept: beside the numbers that came before it, and with `More`, since the table prints both.
#[derive(Clone, Copy, PartialEq, Eq)]
enum End {
    /// All were there.
    More,
    Clean,
    Fault,
}

impl fmt::Display for End {
    fn fmt<W: fmt::Write>(&self, f: &mut fmt::Formatter<W>) -> fmt::Result {
        f.write_str(match self {
            End::More => "more",
            End::Clean => "clean",
            End::Fault => "fault",
        })
    }
}

/// What a stream gave: how many numbers were asked for, those that came, and how they ended.
#[derive(Clone, Copy)]
struct Came<'a> {
    asked: usize,
    numbers: &'a [u32],
    end: End,
}

impl<'a> Came<'a> {
    /// Reads number by number into the places.
    fn one_by_one(mut reader: RunReader, places: &'a mut [u32]) -> Came<'a> {
        let asked = places.len();
        let mut count = asked;
        let mut end = End::More;
        for (k, place) in places.iter_mut().enumerate() {
            let mut one = [0u32];
            end = match reader.read(&mut one) {
                Ok(1) => End::More,
                Ok(_) => End::Clean,
                Err(_) => End::Fault,
            };
            if end != End::More {
                count = k;
                break;
            }
            *place = one[0];
        }
        Came {
            asked,
            numbers: &places[..count.min(asked)],
            end,
        }
    }

    /// Whether a call's reply is the one that goes with these numbers and their end.
    fn replies(&self, reply: Result<usize, StreamFault>) -> bool {
        match reply {
            Ok(n) => n == self.numbers.len() && self.end != End::Fault,
            Err(_) => self.end == End::Fault,
        }
    }

    /// The places that hold these numbers as indexes, and 7 behind them.
    fn indexes(&self) -> [u32; 64] {
        let mut wanted = [7u32; 64];
        for (place, number) in wanted.iter_mut().zip(self.numbers.iter()) {
            *place = *number;
        }
        wanted
    }

    /// The same as levels: the lowest fifteen bits of each.
    fn levels(&self) -> [i16; 64] {
        let mut wanted = [7i16; 64];
        for (place, number) in wanted.iter_mut().zip(self.numbers.iter()) {
            *place = (*number & 0x7fff) as i16;
        }
        wanted
    }

    /// The same as mask bits: whether each is not 0, and `true` behind them.
    fn mask(&self) -> [bool; 64] {
        let mut wanted = [true; 64];
        for (place, number) in wanted.iter_mut().zip(self.numbers.iter()) {
            *place = *number != 0;
        }
        wanted
    }

    /// Whether the places, into which the numbers are read at once, are the wanted ones afterwards.
    fn at_once<T: Number + PartialEq>(
        &self,
        mut reader: RunReader,
        places: &mut [T],
        wanted: &[T],
    ) -> bool {
        let asked = self.asked.min(places.len());
        let reply = reader.read(&mut places[..asked]);
        places.iter().zip(wanted.iter()).all(|(x, y)| *x == *y) && self.replies(reply)
    }

    /// Whether skipping answers as reading does, and leaves the same numbers behind a part.
    fn skipped(&self, reader: RunReader) -> bool {
        let mut whole = reader;
        let mut part = reader;
        let (first, rest) = self.numbers.split_at(self.numbers.len() / 2);
        let front = Came {
            asked: first.len(),
            numbers: first,
            end: End::More,
        };
        let behind = Came {
            asked: self.asked.saturating_sub(first.len()),
            numbers: rest,
            end: self.end,
        };
        front.replies(part.skip(front.asked))
            && behind.at_once(part, &mut [7u32; 64], &behind.indexes())
            && self.replies(whole.skip(self.asked))
    }
}

/// Prints a case with its answer; as many numbers are asked for as there are places for them.
fn answer(rt: &HostRuntime, line: &str, reader: RunReader, places: &mut [u32]) -> io::Result<()> {
    let came = Came::one_by_one(reader, places);
    print!(rt; "{line} ->")?;
    for x in came.numbers {
        print!(rt; " {x}")?;
    }
    if !came.at_once(reader, &mut [7u32; 64], &came.indexes())
        || !came.at_once(reader, &mut [7i16; 64], &came.levels())
    {
        print!(rt; " read otherwise at once")?;
    }
    if !came.at_once(reader, &mut [true; 64], &came.mask()) || !came.skipped(reader) {
        print!(rt; " read or skipped otherwise at once")?;
    }
    let end = came.end;
    println!(rt; " {end}")
}

/// The bytes that a word spells where a capital is no digit: it counts as 0, as all that is none.
fn small_bytes_of(heap: Global, word: &str) -> Result<Vec<u8>, AllocError> {
    let mut bytes = bytes_of(heap, word)?;
    for (byte, digits) in bytes.iter_mut().zip(word.as_bytes().chunks(2)) {
        if let [high, low] = digits {
            if high.is_ascii_uppercase() {
                *byte &= 0x0f;
            }
            if low.is_ascii_uppercase() {
                *byte &= 0xf0;
            }
        }
    }
    Ok(bytes)
}

/// A case.
fn case(rt: &HostRuntime, line: &str, words: &[&str]) -> io::Result<()> {
    let [kind, width, limit, bytes, asked] = words else {
        return println!(rt; "{line}: no case");
    };
    let Some(width) = width.parse::<u32>().ok().and_then(Width::new) else {
        return println!(rt; "{line}: no width");
    };
    let limit = limit.parse::<u64>().unwrap_or(0);
    let asked = asked.parse::<usize>().unwrap_or(0);
    let bytes = small_bytes_of(rt.alloc(), bytes)?;
    let reader = match *kind {
        "packed" => RunReader::bit_packed(bytes.as_slice(), width, limit),
        _ => RunReader::hybrid(bytes.as_slice(), width, limit),
    };
    let mut places = [0u32; 64];
    answer(rt, line, reader, &mut places[..asked.min(64)])
}

fn main(rt: HostRuntime) -> io::Result<()> {
    let heap = rt.alloc();
    for line in rt.lines(heap) {
        let line = line?;
        let words = line.as_str().split(' ').collect::<Vec<&str>>(heap)?;
        case(&rt, line.as_str(), words.as_slice())?;
    }
    Ok(())
}
