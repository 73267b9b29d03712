//! What stands in a trace: samples, the records that the daemon is told, and the steps of a schedule.

use sample_key::Key;

/// What the loader, the kernel and the user tell the daemon, in the order of the trace. Images are named by their index
/// in `Trace::images`; bases and lengths are bytes. The mappings are those that the modified loader, the startup scan
/// and exec report (Anderson et al., ACM TOCS 15(4), section 4.3); the other records are this project's own.
#[derive(Clone, Copy, Debug, PartialEq, Eq)]
pub enum Record {
    /// A mapping that was found at startup.
    Scan {
        pid: u32,
        base: u64,
        length: u64,
        image: u32,
    },
    /// A mapping that the loader made.
    Load {
        pid: u32,
        base: u64,
        length: u64,
        image: u32,
    },
    /// A range is no longer mapped.
    Unload {
        pid: u32,
        base: u64,
        length: u64,
    },
    /// The process has this mapping alone.
    Exec {
        pid: u32,
        base: u64,
        length: u64,
        image: u32,
    },
    /// The process has no mapping.
    Exit {
        pid: u32,
    },
    /// A mapping of the kernel, which each process has behind its own.
    Kernel {
        base: u64,
        length: u64,
        image: u32,
    },
    /// A complete flush is asked for.
    Drain,
    /// What was gathered is committed.
    Merge,
    /// A flush, a commit, and a new epoch.
    Epoch,
}

impl Record {
    ghost use Rattle.std.specs.Prelude.{◌≡◌};
    ghost use Rattle.trace_model.specs.Parts.{begins_epoch, ends_part};

    /// Whether a new epoch begins here.
    pub fn begins_epoch(&self) -> bool
        ensures { result ≡ begins_epoch self.now }
    {
        match self {
            Record::Epoch => true,
            Record::Scan { .. } => false,
            Record::Load { .. } => false,
            Record::Unload { .. } => false,
            Record::Exec { .. } => false,
            Record::Exit { .. } => false,
            Record::Kernel { .. } => false,
            Record::Drain => false,
            Record::Merge => false,
        }
    }

    /// Whether a part of a run ends here: what was gathered is committed.
    pub fn ends_part(&self) -> bool
        ensures { result ≡ ends_part self.now }
    {
        match self {
            Record::Merge | Record::Epoch => true,
            Record::Scan { .. } => false,
            Record::Load { .. } => false,
            Record::Unload { .. } => false,
            Record::Exec { .. } => false,
            Record::Exit { .. } => false,
            Record::Kernel { .. } => false,
            Record::Drain => false,
        }
    }
}

/// A line of a trace's body.
#[derive(Clone, Copy, Debug, PartialEq, Eq)]
pub enum Line {
    /// A sample that was taken on a processor, which is below the trace's number of processors.
    Sample { cpu: u32, key: Key },
    /// A record.
    Rec(Record),
}

/// A step of a trace's schedule.
#[derive(Clone, Copy, Debug, PartialEq, Eq)]
pub enum Step {
    /// One turn of a processor's driver.
    Lane { cpu: u32 },
    /// One poll of a cell, 0 to 2, of a processor.
    Poll { cpu: u32, cell: u8 },
    /// One advance of the daemon.
    Advance,
}

/// Where a program counter lies: an image by its index, and the offset in bytes from its base.
#[derive(Clone, Copy, Debug, PartialEq, Eq)]
pub struct Place {
    /// The index of the image in `Trace::images`.
    pub image: u32,
    /// Bytes from the base of the mapping.
    pub offset: u64,
}
