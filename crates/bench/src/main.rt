//! Reads streams of runs: a short one in each width for its sum, and with the argument `full` long ones for their time.
#![tactic(auto)]

use element::number::Number;
use run::reader::RunReader;
use std::alloc::{AllocError, Global};
use std::time::Instant;
use std::{env, io};
use stream::width::Width;

/// How many numbers are read at a time.
const BATCH: usize = 1024;

/// A stream of runs, and how it is to be read.
#[derive(Clone, Copy)]
struct Coded<'a> {
    bytes: &'a [u8],
    bits: u32,
    limit: u64,
}

impl<'a> Coded<'a> {
    /// A reader of the stream, if there is such a width.
    fn reader(self) -> Option<RunReader<'a>> {
        let width = Width::new(self.bits)?;
        Some(RunReader::hybrid(self.bytes, width, self.limit))
    }
}

/// The bytes `head`, then `n` bytes: those of `body`, over and over.
fn page(heap: Global, head: &[u8], body: &[u8], n: usize) -> Result<Vec<u8>, AllocError> {
    let mut bytes = Vec::new(heap);
    bytes.extend_from_slice(head)?;
    for byte in body.iter().cycle().take(n) {
        bytes.push(*byte)?;
    }
    Ok(bytes)
}

/// The sum of the numbers in the stream, or none at a fault.
fn sum(mut reader: RunReader, out: &mut [u32]) -> Option<u64> {
    let mut total = 0u64;
    for _ in 0..1000 {
        let k = reader.read(out).ok()?;
        if k == 0 {
            return Some(total);
        }
        for x in out.iter().take(k) {
            total = total.wrapping_add(u64::from(*x));
        }
    }
    None
}

/// Reads all numbers of the stream, as many at a time as `out` has places, and tells how many.
fn drain<T: Number>(mut reader: RunReader, out: &mut [T]) -> u64 {
    let mut total = 0u64;
    for _ in 0..20000 {
        match reader.read(out) {
            Ok(k) if k > 0 => total = total.wrapping_add(k as u64),
            _ => break,
        }
    }
    total
}

/// Prints the picoseconds that each number takes, the best of five runs.
fn time<T: Number>(rt: &HostRuntime, name: &str, stream: Coded, out: &mut [T]) -> io::Result<()> {
    let Some(reader) = stream.reader() else {
        return Ok(());
    };
    let mut best = u128::MAX;
    let n = drain(reader, out);
    for _ in 0..5 {
        let start = Instant::now(rt)?;
        let _ = drain(reader, out);
        let took = start.elapsed(rt)?.as_nanos();
        best = best.min(took);
    }
    if n > 0 {
        let each = best.wrapping_mul(1000) / n as u128;
        let bits = stream.bits;
        println!(rt; "{name} width {bits}: {n} numbers, {each} ps each")?;
    }
    Ok(())
}

/// Times long streams.
fn full(rt: &HostRuntime) -> io::Result<()> {
    let heap = rt.alloc();
    let mut indexes = vec![in heap; 0u32; BATCH]?;
    let mut levels = vec![in heap; 0i16; BATCH]?;
    let mut mask = vec![in heap; false; BATCH]?;
    for bits in [1u32, 2, 3, 4, 5, 8, 10, 12, 16, 20, 32] {
        let bytes = page(
            heap,
            &[0x81, 0x80, 0x80, 0x02],
            &[0x55],
            2097152 * bits as usize,
        )?;
        let stream = Coded {
            bytes: bytes.as_slice(),
            bits,
            limit: 1 << 33,
        };
        let held = |limit: u64| Coded { limit, ..stream };
        time(rt, "packed u32", stream, &mut indexes)?;
        if bits < 9 {
            time(rt, "packed i16", stream, &mut levels)?;
        }
        if bits == 1 {
            time(rt, "packed bool", stream, &mut mask)?;
        }
        if bits == 2 {
            time(rt, "packed i16, held against 3,", held(3), &mut levels)?;
        }
        if bits == 10 {
            time(
                rt,
                "packed u32, held against 1000,",
                held(1000),
                &mut indexes,
            )?;
        }
    }
    // One run of 2^24 copies; its value takes one byte, and three at width 20.
    let bytes = page(heap, &[], &[0x80, 0x80, 0x80, 0x10, 0x01], 5)?;
    for bits in [1u32, 3, 8] {
        let stream = repeated(&bytes, bits);
        time(rt, "repeated u32", stream, &mut indexes)?;
        time(rt, "repeated i16", stream, &mut levels)?;
    }
    let bytes = page(heap, &[], &[0x80, 0x80, 0x80, 0x10, 0x01, 0x00, 0x00], 7)?;
    time(rt, "repeated u32", repeated(&bytes, 20), &mut indexes)?;
    let bytes = page(heap, &[], &[0xd0, 0x0f, 0x01], 3 * 16777)?;
    let stream = repeated(&bytes, 1);
    time(rt, "repeated u32, runs of 1000,", stream, &mut indexes)?;
    time(rt, "repeated i16, runs of 1000,", stream, &mut levels)?;
    let bytes = page(heap, &[], &[0x10, 0x01], 2 * 2097152)?;
    time(
        rt,
        "repeated i16, runs of 8,",
        repeated(&bytes, 1),
        &mut levels,
    )?;
    Ok(())
}

/// A stream of repeated values below 2.
fn repeated(bytes: &[u8], bits: u32) -> Coded<'_> {
    Coded {
        bytes,
        bits,
        limit: 2,
    }
}

fn main(rt: HostRuntime) -> io::Result<()> {
    let heap = rt.alloc();
    if env::args(&rt)?.any(|word| word.as_str() == "full") {
        return full(&rt);
    }
    let mut out = vec![in heap; 0u32; BATCH]?;
    for bits in 0..33u32 {
        let bytes = page(
            heap,
            &[0x81, 0x08],
            &[0x35, 0xc1, 0x7e, 0x92, 0x0b],
            512 * bits as usize,
        )?;
        let stream = Coded {
            bytes: bytes.as_slice(),
            bits,
            limit: 1 << 33,
        };
        let Some(reader) = stream.reader() else {
            continue;
        };
        match sum(reader, &mut out) {
            Some(total) => println!(rt; "width {bits}: {total}")?,
            None => println!(rt; "width {bits}: a fault")?,
        }
    }
    Ok(())
}
