//! What a trace says, by the rules of the format alone: the number of its first bad line, or its counts where no record
//! stands between a sample and its drain. It knows the forms of lines that the work of four processors has, for no
//! change of one byte makes another.
use crate::traces::EVENTS;
use std::alloc::Global;
use std::test::Fail;
use text_num::{put_dec, put_hex, read_dec, read_hex};

/// What a trace says.
#[derive(Drop)]
pub enum Told {
    /// The first line that is bad, from 1.
    Bad(usize),
    /// The lines of its counts, in byte order, and its samples.
    Counts { lines: Vec<Vec<u8>>, samples: u64 },
}

/// How a mapping is learned.
#[derive(Clone, Copy, PartialEq, Eq)]
enum Learned {
    /// Beside the others of the process.
    Added,
    /// In place of all others of the process.
    Alone,
    /// Of the kernel.
    Kernel,
}

/// A mapping.
#[derive(Drop)]
struct Mapping {
    learned: Learned,
    pid: u64,
    base: u64,
    length: u64,
    image: Vec<u8>,
}

impl Mapping {
    // How far behind the base an address is that it covers.
    fn offset(&self, pc: u64) -> Option<u64> {
        match pc.checked_sub(self.base) {
            Some(offset) if offset < self.length => Some(offset),
            _ => None,
        }
    }
}

/// What was read so far.
#[derive(Drop)]
struct Reading {
    cpus: u64,
    is_ended: bool,
    mappings: Vec<Mapping>,
    counts: Vec<(Vec<u8>, u64)>,
    samples: u64,
}

const MOST_CPUS: u64 = 16;

const MOST_BUCKETS: u64 = 4_096;

const MOST_ENTRIES: u64 = 8_192;

// Process numbers are below.
const PIDS: u64 = 1 << 32;

// The greatest end of a mapping.
const LAST_END: u64 = u64::MAX - 3;

fn is_word(text: &[u8], word: &str) -> bool {
    text == word.as_bytes()
}

fn is_number(text: &[u8], least: u64, greatest: u64) -> bool {
    match read_dec(text) {
        Some(number) => least <= number && number <= greatest,
        None => false,
    }
}

// An address or a length: hexadecimal, and a multiple of 4.
fn address(text: &[u8]) -> Option<u64> {
    match read_hex(text) {
        Some(number) if number % 4 == 0 => Some(number),
        _ => None,
    }
}

fn pid_of(text: &[u8]) -> Option<u64> {
    match read_dec(text) {
        Some(number) if number < PIDS => Some(number),
        _ => None,
    }
}

fn is_name(text: &[u8]) -> bool {
    !text.is_empty() && text.len() <= 255 && text.iter().all(|byte| b'!' <= *byte && *byte <= b'~')
}

fn is_event(text: &[u8]) -> bool {
    EVENTS.iter().any(|event| event.as_bytes() == text)
}

// The parts of a line between blanks.
fn fields_of(alloc: Global, line: &[u8]) -> Result<Vec<Vec<u8>>, Fail> {
    let mut fields = Vec::new(alloc);
    for field in line.split(|byte| *byte == b' ') {
        fields.push(field.to_vec(alloc)?)?;
    }
    Ok(fields)
}

impl Reading {
    fn new(alloc: Global) -> Reading {
        Reading {
            cpus: 0,
            is_ended: false,
            mappings: Vec::new(alloc),
            counts: Vec::new(alloc),
            samples: 0,
        }
    }

    // Reads the first line; false where it is no header.
    fn take_header(&mut self, fields: &[Vec<u8>]) -> bool {
        let has_sizes = match fields.get(4..) {
            Some([]) => true,
            Some([buckets, most, buffer, entries]) => {
                let of_buckets = read_dec(most).unwrap_or(0);
                is_word(buckets, "buckets")
                    && is_word(buffer, "buffer")
                    && of_buckets.is_power_of_two()
                    && of_buckets <= MOST_BUCKETS
                    && is_number(entries, 1, MOST_ENTRIES)
            }
            _ => false,
        };
        match fields.get(..4) {
            Some([name, version, word, cpus]) if has_sizes => {
                self.cpus = read_dec(cpus).unwrap_or(0);
                is_word(name, "dcpi-trace")
                    && is_word(version, "1")
                    && is_word(word, "cpus")
                    && is_number(cpus, 1, MOST_CPUS)
            }
            _ => false,
        }
    }

    // Reads a line of the body; false where it is bad.
    fn take_body(&mut self, alloc: Global, fields: &[Vec<u8>]) -> Result<bool, Fail> {
        match fields {
            [word] if is_word(word, "end") => {
                self.is_ended = true;
                Ok(true)
            }
            [word, base, length, image] if is_word(word, "kernel") => {
                self.take_mapping(alloc, Learned::Kernel, Some(0), base, length, image)
            }
            [word, cpu, pid, pc, event] if is_word(word, "s") => {
                self.take_sample(alloc, cpu, pid, pc, event)
            }
            [word, pid, base, length, image] => match word.as_slice() {
                b"scan" | b"load" => {
                    self.take_mapping(alloc, Learned::Added, pid_of(pid), base, length, image)
                }
                b"exec" => {
                    self.take_mapping(alloc, Learned::Alone, pid_of(pid), base, length, image)
                }
                _ => Ok(false),
            },
            _ => Ok(false),
        }
    }

    fn take_mapping(
        &mut self,
        alloc: Global,
        learned: Learned,
        pid: Option<u64>,
        base: &[u8],
        length: &[u8],
        image: &[u8],
    ) -> Result<bool, Fail> {
        let (Some(pid), Some(base), Some(length)) = (pid, address(base), address(length)) else {
            return Ok(false);
        };
        let Some(end) = base.checked_add(length) else {
            return Ok(false);
        };
        if length == 0 || end > LAST_END || !is_name(image) {
            return Ok(false);
        }
        self.mappings.push(Mapping {
            learned,
            pid,
            base,
            length,
            image: image.to_vec(alloc)?,
        })?;
        Ok(true)
    }

    fn take_sample(
        &mut self,
        alloc: Global,
        cpu: &[u8],
        pid: &[u8],
        pc: &[u8],
        event: &[u8],
    ) -> Result<bool, Fail> {
        let (Some(cpu), Some(pid), Some(pc)) = (read_dec(cpu), pid_of(pid), address(pc)) else {
            return Ok(false);
        };
        if cpu >= self.cpus || !is_event(event) {
            return Ok(false);
        }
        let line = self.line_of(alloc, pid, pc, event)?;
        self.count(line)?;
        Ok(true)
    }

    // The line of counts of a sample, without the count.
    fn line_of(&self, alloc: Global, pid: u64, pc: u64, event: &[u8]) -> Result<Vec<u8>, Fail> {
        let mut line = Vec::new(alloc);
        match self.place(pid, pc) {
            Some((image, offset)) => {
                line.extend_from_slice(b"k 0 ")?;
                line.extend_from_slice(image)?;
                line.push(b' ')?;
                line.extend_from_slice(event)?;
                line.push(b' ')?;
                put_hex(&mut line, offset)?;
            }
            None => {
                line.extend_from_slice(b"u 0 ")?;
                line.extend_from_slice(event)?;
                line.push(b' ')?;
                put_hex(&mut line, pc)?;
            }
        }
        Ok(line)
    }

    // The image and the offset of an address: what the last notice of the process that decides says, else the kernel.
    fn place(&self, pid: u64, pc: u64) -> Option<(&[u8], u64)> {
        for mapping in self.mappings.iter().rev() {
            if mapping.learned != Learned::Kernel && mapping.pid == pid {
                if let Some(offset) = mapping.offset(pc) {
                    return Some((mapping.image.as_slice(), offset));
                }
                if mapping.learned == Learned::Alone {
                    break;
                }
            }
        }
        for mapping in self.mappings.iter().rev() {
            if mapping.learned == Learned::Kernel {
                if let Some(offset) = mapping.offset(pc) {
                    return Some((mapping.image.as_slice(), offset));
                }
            }
        }
        None
    }

    fn count(&mut self, line: Vec<u8>) -> Result<(), Fail> {
        self.samples = self.samples.saturating_add(1);
        for (held, count) in self.counts.iter_mut() {
            if held.as_slice() == line.as_slice() {
                *count = count.saturating_add(1);
                return Ok(());
            }
        }
        self.counts.push((line, 1))?;
        Ok(())
    }

    // The lines of the counts, in byte order.
    fn lines(self, alloc: Global) -> Result<Vec<Vec<u8>>, Fail> {
        let mut lines = Vec::new(alloc);
        for (line, count) in self.counts {
            let mut line = line;
            line.push(b' ')?;
            put_dec(&mut line, u128::from(count))?;
            lines.push(line)?;
        }
        lines.sort()?;
        Ok(lines)
    }
}

/// What a trace says. Its lines are shorter than the limit of a line, and fewer than the limits of samples and records.
pub fn reading_of(alloc: Global, text: &[u8]) -> Result<Told, Fail> {
    let mut reading = Reading::new(alloc);
    let finished = text.iter().filter(|byte| **byte == b'\n').count();
    let mut number: usize = 0;
    for line in text.split(|byte| *byte == b'\n') {
        let fields = fields_of(alloc, line)?;
        let is_good = if number == finished {
            reading.is_ended && line.is_empty()
        } else if number == 0 {
            reading.take_header(&fields)
        } else {
            !reading.is_ended && reading.take_body(alloc, &fields)?
        };
        number = number.saturating_add(1);
        if !is_good {
            return Ok(Told::Bad(number));
        }
    }
    let samples = reading.samples;
    let lines = reading.lines(alloc)?;
    Ok(Told::Counts { lines, samples })
}
