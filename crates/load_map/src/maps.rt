//! The load map itself: `LoadMap::apply` puts a record in force, `LoadMap::place` finds an address. It stands for the
//! records that were applied: it answers as they do, for each process and for the kernel.
ghost use Rattle.std.specs.Prelude.{◌≡◌, ℕ, ◌<◌, ◌+◌, ◌%◌, ◌^◌, [], ◌∷◌, if◌then◌else◌, ◌==◌, OnOk, OnErr, IfSome, true};
ghost use Rattle.trace_model.specs.Recording.{keeps_ranges};
ghost use Rattle.load_map.specs.Maps.{StandsFor, StandsAs, Applies, Finds, CoverOnlyPlaces, CoverAllPlaces, Changes, Keeps, own_of, range_of};
ghost use Rattle.load_map.specs.Ranges.{IsRange, RangesFrom, place_in, with_range, without_range};

use crate::ranges::{Range, Ranges};
use std::alloc::{AllocError, Global};
use std::collections::BTreeMap;
use trace_model::{Place, Record};

/// The mappings that the records so far make.
#[derive(Drop)]
pub struct LoadMap {
    alloc: Global,
    processes: BTreeMap<u32, Ranges>,
    kernel: Ranges,
}

impl LoadMap {
    /// The map before any record.
    pub fn new(alloc: Global) -> LoadMap
        ensures { StandsFor result [] }
    {
        LoadMap {
            alloc,
            processes: BTreeMap::new(alloc),
            kernel: Ranges::new(alloc),
        }
    }

    /// Puts a record in force. Where no memory is found the map is as before.
    pub fn apply(&mut self, entry: &Record) -> Result<(), AllocError>
        requires { keeps_ranges entry.now ≡ true }
        ensures applied { OnOk result (Applies self.old entry.now self.new) }
        ensures refused { OnErr result (StandsAs self.old self.new) }
    {
        match entry {
            Record::Scan {
                pid,
                base,
                length,
                image,
            } => self.map(*pid, range_of(*base, *length, *image)),
            Record::Load {
                pid,
                base,
                length,
                image,
            } => self.map(*pid, range_of(*base, *length, *image)),
            Record::Unload { pid, base, length } => self.unmap(*pid, *base, *base + *length),
            Record::Exec {
                pid,
                base,
                length,
                image,
            } => self.replace(*pid, range_of(*base, *length, *image)),
            Record::Exit { pid } => {
                self.processes.remove(pid);
                Ok(())
            }
            Record::Kernel {
                base,
                length,
                image,
            } => self
                .kernel
                .put(self.alloc, range_of(*base, *length, *image)),
            Record::Drain => Ok(()),
            Record::Merge => Ok(()),
            Record::Epoch => Ok(()),
        }
    }

    // The process has this range, and of its others what lies before it and behind it.
    fn map(&mut self, pid: u32, range: Range) -> Result<(), AllocError>
        requires { IsRange range }
        ensures mapped { OnOk result (Changes self.old self.new pid (with_range range)) }
        ensures kernel { self.new.kernel ≡ self.old.kernel }
        ensures refused { OnErr result (Keeps self.old self.new) }
    {
        match self.processes.get_mut(&pid) {
            Some(ranges) => ranges.put(self.alloc, range),
            None => self.replace(pid, range),
        }
    }

    // The process has of its ranges what lies before `base` and from `end` on.
    fn unmap(&mut self, pid: u32, base: u64, end: u64) -> Result<(), AllocError>
        requires { base < end }
        ensures unmapped { OnOk result (Changes self.old self.new pid (without_range base end)) }
        ensures kernel { self.new.kernel ≡ self.old.kernel }
        ensures refused { OnErr result (Keeps self.old self.new) }
    {
        match self.processes.get_mut(&pid) {
            Some(ranges) => ranges.cut(self.alloc, base, end),
            None => Ok(()),
        }
    }

    // The process has this range alone.
    fn replace(&mut self, pid: u32, range: Range) -> Result<(), AllocError>
        requires { IsRange range }
        ensures replaced { OnOk result (Changes self.old self.new pid (λ ranges. range ∷ [])) }
        ensures kernel { self.new.kernel ≡ self.old.kernel }
        ensures refused { OnErr result (Keeps self.old self.new) }
    {
        let ranges = Ranges::of(self.alloc, range)?;
        self.processes.insert(pid, ranges)?;
        Ok(())
    }

    /// Where an address of a process lies; nothing exactly where its place is unknown.
    pub fn place(&self, pid: u32, pc: u64) -> Option<Place>
        ensures place { Finds self.now pid pc result }
        ensures aligned { pc % 4 ≡ 0 → IfSome result (λ found. found.offset % 4 ≡ 0) }
    {
        match self.own(pid, pc) {
            Some(place) => Some(place),
            None => self.kernel.place(pc),
        }
    }

    fn own(&self, pid: u32, pc: u64) -> Option<Place>
        ensures place { result ≡ own_of self.now pid pc }
        ensures aligned { pc % 4 ≡ 0 → IfSome result (λ found. found.offset % 4 ≡ 0) }
    {
        match self.processes.get(&pid) {
            Some(ranges) => ranges.place(pc),
            None => None,
        }
    }

    /// The ranges of a process, in rising order and apart: they cover exactly the addresses that a record of this process
    /// gives a place, each with the range's image, at its distance from the range's origin. None where it has no mapping.
    pub fn ranges(&self, pid: u32) -> &[Range]
        ensures rising { RangesFrom 0 result.now }
        ensures only { CoverOnlyPlaces self.now pid result.now }
        ensures all { CoverAllPlaces self.now pid result.now }
    {
        match self.processes.get(&pid) {
            Some(ranges) => ranges.as_slice(),
            None => &[],
        }
    }
}

// The range of a mapping: it begins at offset 0 of the image.
fn range_of(base: u64, length: u64, image: u32) -> Range
    requires fits { base + length < 2 ^ 64 }
    ensures { result ≡ range_of base length image }
{
    Range {
        base,
        end: base + length,
        image,
        origin: base,
    }
}
