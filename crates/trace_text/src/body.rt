//! The body of a trace, as far as it was read: `Body::take_line` finds a line's form, judges it after what the lines
//! before it said, and keeps what it says. The body counts what the limits speak of and holds each image once.

ghost use Rattle.std.specs.Prelude.{◌≡◌, ◌%◌, ◌<◌, ◌≤◌, nat_le, [], ◌∷◌, true, not, OnOk, IfErr, IfOk, IfSome, Some, None, if◌then◌else◌, ◌||◌};
ghost use Rattle.std.specs.Ordering.{nat_cmp};
ghost use Rattle.std.specs.Cmp.Lexicographic.{slice_cmp};
ghost use Rattle.std.specs.BTreeMap.{get};
ghost use Rattle.sample_key.specs.declared.limits.TheConstants.{MOST_SAMPLES};
ghost use Rattle.trace_model.specs.declared.limits.TheConstants.{MOST_PARTS, MOST_RECORDS};
ghost use Rattle.trace_model.specs.Grammar.{verdict, verdict_on};
ghost use Rattle.trace_text.specs.Entries.{record_may_precede_scan};
ghost use Rattle.trace_text.specs.State.{FaultOf, Passes};

use crate::body_lines::{
    BodyForm, BodyLine, BodyValues, NoticeLine, NoticeValues, SampleValues, body_form, is_aligned,
    is_spelled, is_titled, read_values,
};
use crate::fields::why_not_read;
use crate::headers::Sizes;
use crate::refusals::LineRefusal;
use crate::samples::read_plain_sample;
use sample_key::{Key, MOST_SAMPLES};
use std::alloc::{AllocError, Global};
use std::cmp::Ordering;
use std::collections::BTreeMap;
use std::collections::btree_map::Comparable;
use text_num::Name;
use trace_lines::{CutTrace, Lines, Outline};
use trace_model::{Line, MOST_PARTS, MOST_RECORDS, Record, Step, Trace, TraceWhy};

/// The sizes and the body of a trace, as far as it was read.
#[derive(Drop)]
pub struct Body {
    /// The sizes that the header gave.
    pub sizes: Sizes,
    /// The images, in order of first use.
    pub images: Vec<Name>,
    /// The index of each image, by its name.
    index: BTreeMap<Name, u32>,
    /// The samples and records.
    pub lines: Lines,
    /// How many of the lines are samples.
    samples: u64,
    /// How many of the lines are records.
    records: u32,
    /// How many of the records end a part.
    parts: u32,
    /// Whether a scan may still follow.
    scans: bool,
}

/// What a good line of the body is.
#[derive(Clone, Copy, PartialEq, Eq)]
pub enum Taken {
    /// A sample or a record.
    Line,
    /// The end of the body.
    End,
}

impl Body {
    ghost use Rattle.text_num.specs.Names.{is_name};
    ghost use Rattle.trace_model.specs.Recording.{said_in};
    ghost use Rattle.trace_model.specs.Said.{KernelMapped, every, tested, is_titled};
    ghost use Rattle.trace_model.specs.Traces.{recording_of};
    ghost use Rattle.trace_lines.specs.Outlines.{outlined};
    ghost use Rattle.trace_text.specs.Forms.{body_shown, notice_values, sample_values, values_shown};
    ghost use Rattle.trace_text.specs.Judging.{size_shown};
    ghost use Rattle.trace_text.specs.Progress.{IsRefusal};
    ghost use Rattle.trace_text.specs.Sampling.{IsGoodSample};
    ghost use Rattle.trace_text.specs.State.{AreSteps, HasItsImages, IsSound, frame_of, said_in_body, said_with_steps};
    ghost use Rattle.trace_text.specs.Taking.{Adds, IsIndexed, IsJudged, Names, NamesImage, PushesRecord};
    ghost use Rattle.trace_text.specs.Taking.{PushesSample, TakesLine, TakesSample};
    ghost use Rattle.trace_text.specs.Faults.{part_fault, record_fault, sample_fault, scan_fault};

    /// The body that stands behind a header, before its first line, which these lines are to keep.
    pub fn new(alloc: Global, sizes: Sizes, lines: Lines) -> Body
        requires passes { Passes [] (size_shown sizes) }
        requires none { lines.items ≡ [] }
        ensures sound { IsSound result }
        ensures said { said_in_body result ≡ size_shown sizes ∷ [] }
        ensures frame { frame_of result ≡ (sizes, lines.cpus) }
    {
        Body {
            sizes,
            images: Vec::new(alloc),
            index: BTreeMap::new(alloc),
            lines,
            samples: 0,
            records: 0,
            parts: 0,
            scans: true,
        }
    }

    /// Takes the next line of the body.
    pub fn take_line(&mut self, alloc: Global, line: &[u8]) -> Result<Taken, LineRefusal>
        requires { IsSound self.old }
        ensures taken { IfOk result (λ taken. TakesLine taken self.old line.now self.new) }
        ensures refused { IfErr result (IsRefusal (verdict (said_in_body self.old) line.now)) }
    {
        if self.take_sample(line)? {
            Ok(Taken::Line)
        } else {
            self.take_by_fields(alloc, line)
        }
    }

    /// Takes a line that is a good sample's, and answers whether it was one; another line changes nothing.
    pub fn take_sample(&mut self, line: &[u8]) -> Result<bool, AllocError>
        requires { IsSound self.old }
        ensures { IfOk result (λ took. TakesSample took self.old line.now self.new) }
    {
        match self.plain_sample(line) {
            Some(sample) => {
                self.push_sample(&sample)?;
                Ok(true)
            }
            None => Ok(false),
        }
    }

    // The sample of a good line, where it was read in one pass.
    fn plain_sample(&self, line: &[u8]) -> Option<SampleValues>
        requires { IsSound self.now }
        ensures { IfSome result (λ sample. IsGoodSample self.now line.now sample) }
    {
        let sample = read_plain_sample(line)?;
        if sample.pc % 4 != 0 {
            return None;
        }
        match self.against_sample(sample.cpu) {
            Some(_) => None,
            None => Some(sample),
        }
    }

    // The same as `take_line`, with each field cut off first and read then, so that a refusal has its first reason.
    fn take_by_fields(&mut self, alloc: Global, line: &[u8]) -> Result<Taken, LineRefusal>
        requires { IsSound self.old }
        ensures taken { IfOk result (λ taken. TakesLine taken self.old line.now self.new) }
        ensures refused { IfErr result (IsRefusal (verdict (said_in_body self.old) line.now)) }
    {
        let Some(form) = body_form(line) else {
            return Err(LineRefusal::Bad {
                why: TraceWhy::BadWord,
            });
        };
        let values = self.judge(&form)?;
        let taken = self.add(alloc, &values)?;
        Ok(taken)
    }

    /// The trace of this body, whose lines were kept, and these steps.
    pub fn into_trace(self, schedule: Vec<Step>) -> Trace
        requires steps { AreSteps self schedule.items }
        requires whole { self.lines.cpus ≡ None }
        ensures said { said_in (recording_of result) ≡ said_with_steps self schedule.items }
        ensures images { HasItsImages (recording_of result) }
    {
        Trace {
            cpus: self.sizes.cpus,
            buckets: self.sizes.buckets,
            buffer: self.sizes.buffer,
            images: self.images,
            lines: self.lines.into_whole(),
            schedule,
        }
    }

    /// The trace of this body, whose lines were cut for its processors, and these steps.
    pub fn into_cut(self, schedule: Vec<Step>) -> CutTrace
        requires steps { AreSteps self schedule.items }
        requires cut { self.lines.cpus ≡ Some self.sizes.cpus }
        ensures said { said_in (outlined result.outline) ≡ said_with_steps self schedule.items }
        ensures images { HasItsImages (outlined result.outline) }
    {
        let (lines, streams) = self.lines.into_streams();
        let outline = Outline {
            cpus: self.sizes.cpus,
            buckets: self.sizes.buckets,
            buffer: self.sizes.buffer,
            images: self.images,
            lines,
            schedule,
        };
        CutTrace { outline, streams }
    }

    // What a line whose words are in order says, or the first reason why it is refused.
    fn judge<'a>(&self, form: &BodyForm<'a>) -> Result<BodyValues<'a>, TraceWhy>
        requires { IsSound self.now }
        ensures judged { IsJudged result
            (verdict_on (said_in_body self.now) (body_shown form.now)) }
        ensures passes { IfOk result (λ line. Passes (said_in_body self.now) (values_shown line)) }
    {
        let Some(values) = read_values(form) else {
            return Err(why_not_read(is_spelled(form)));
        };
        if !is_aligned(&values) {
            return Err(TraceWhy::Unaligned);
        }
        if !is_titled(&values) {
            return Err(TraceWhy::BadName);
        }
        match self.context(&values) {
            Some(why) => Err(why),
            None => Ok(values),
        }
    }

    // The first reason that the lines before it give against a line.
    fn context(&self, values: &BodyValues<'_>) -> Option<TraceWhy>
        requires { IsSound self.now }
        ensures { FaultOf (said_in_body self.now) (values_shown values.now) result }
    {
        match values {
            BodyLine::Sample(sample) => self.against_sample(sample.cpu),
            BodyLine::Notice(notice) => self.against_notice(notice),
            BodyLine::End => None,
        }
    }

    fn against_notice(&self, values: &NoticeValues<'_>) -> Option<TraceWhy>
        requires { IsSound self.now }
        ensures { FaultOf (said_in_body self.now) (notice_values values.now) result }
    {
        match values {
            NoticeLine::Scan(_) => self.against_scan(),
            NoticeLine::Load(_) => self.against_record(),
            NoticeLine::Unload { .. } => self.against_record(),
            NoticeLine::Exec(_) => self.against_record(),
            NoticeLine::Exit { .. } => self.against_record(),
            NoticeLine::Kernel { .. } => self.against_record(),
            NoticeLine::Drain => self.against_record(),
            NoticeLine::Merge => self.against_part(),
            NoticeLine::Epoch => self.against_part(),
        }
    }

    fn against_sample(&self, cpu: u32) -> Option<TraceWhy>
        ensures { result ≡ sample_fault self.now.sizes.cpus self.now.samples cpu }
    {
        if self.sizes.cpus <= cpu {
            Some(TraceWhy::NoSuchCpu)
        } else if MOST_SAMPLES <= self.samples {
            Some(TraceWhy::TooManySamples)
        } else {
            None
        }
    }

    fn against_scan(&self) -> Option<TraceWhy>
        ensures { result ≡ scan_fault self.now.scans self.now.records }
    {
        if !self.scans {
            Some(TraceWhy::ScanTooLate)
        } else if MOST_RECORDS <= self.records {
            Some(TraceWhy::TooManyRecords)
        } else {
            None
        }
    }

    fn against_record(&self) -> Option<TraceWhy>
        ensures { result ≡ record_fault self.now.records }
    {
        if MOST_RECORDS <= self.records {
            Some(TraceWhy::TooManyRecords)
        } else {
            None
        }
    }

    fn against_part(&self) -> Option<TraceWhy>
        ensures { result ≡ part_fault self.now.records self.now.parts }
    {
        if MOST_RECORDS <= self.records || MOST_PARTS <= self.parts {
            Some(TraceWhy::TooManyRecords)
        } else {
            None
        }
    }

    // Keeps what a good line says.
    fn add(&mut self, alloc: Global, values: &BodyValues<'_>) -> Result<Taken, AllocError>
        requires sound { IsSound self.old }
        requires passes { Passes (said_in_body self.old) (values_shown values.now) }
        ensures { IfOk result (λ taken. Adds taken self.old (values_shown values.now) self.new) }
    {
        match values {
            BodyLine::Sample(sample) => {
                self.push_sample(sample)?;
                Ok(Taken::Line)
            }
            BodyLine::Notice(notice) => {
                let record = self.record_of(alloc, notice)?;
                self.push_record(record)?;
                Ok(Taken::Line)
            }
            BodyLine::End => Ok(Taken::End),
        }
    }

    // The record that a line says, with its image by index.
    fn record_of(&mut self, alloc: Global, values: &NoticeValues<'_>) -> Result<Record, AllocError>
        requires index { IsIndexed self.old }
        requires titled { every is_titled (tested (notice_values values.now)) ≡ true }
        ensures { IfOk result (Names self.old self.new (notice_values values.now)) }
    {
        match *values {
            NoticeLine::Scan(mapping) => {
                let image = self.image(alloc, mapping.image)?;
                Ok(Record::Scan {
                    pid: mapping.pid,
                    base: mapping.base,
                    length: mapping.length,
                    image,
                })
            }
            NoticeLine::Load(mapping) => {
                let image = self.image(alloc, mapping.image)?;
                Ok(Record::Load {
                    pid: mapping.pid,
                    base: mapping.base,
                    length: mapping.length,
                    image,
                })
            }
            NoticeLine::Unload { pid, base, length } => Ok(Record::Unload { pid, base, length }),
            NoticeLine::Exec(mapping) => {
                let image = self.image(alloc, mapping.image)?;
                Ok(Record::Exec {
                    pid: mapping.pid,
                    base: mapping.base,
                    length: mapping.length,
                    image,
                })
            }
            NoticeLine::Exit { pid } => Ok(Record::Exit { pid }),
            NoticeLine::Kernel {
                base,
                length,
                image,
            } => self.kernel_record(alloc, base, length, image),
            NoticeLine::Drain => Ok(Record::Drain),
            NoticeLine::Merge => Ok(Record::Merge),
            NoticeLine::Epoch => Ok(Record::Epoch),
        }
    }

    // The record of a mapping of the kernel.
    fn kernel_record(
        &mut self,
        alloc: Global,
        base: u64,
        length: u64,
        image: &[u8],
    ) -> Result<Record, AllocError>
        requires index { IsIndexed self.old }
        requires name { is_name image.now ≡ true }
        ensures { IfOk result (Names self.old self.new (KernelMapped base length image.now)) }
    {
        let image = self.image(alloc, image)?;
        Ok(Record::Kernel {
            base,
            length,
            image,
        })
    }

    // The index of an image, which is named first here where it is new.
    fn image(&mut self, alloc: Global, bytes: &[u8]) -> Result<u32, AllocError>
        requires index { IsIndexed self.old }
        requires name { is_name bytes.now ≡ true }
        ensures { IfOk result (NamesImage self.old self.new bytes.now) }
    {
        match index_of(&self.index, bytes) {
            Some(index) => Ok(index),
            None => self.new_image(alloc, bytes),
        }
    }

    fn new_image(&mut self, alloc: Global, bytes: &[u8]) -> Result<u32, AllocError>
        requires index { IsIndexed self.old }
        requires name { is_name bytes.now ≡ true }
        requires new { get (slice_cmp nat_cmp) self.old.index bytes.now ≡ None }
        ensures { IfOk result (NamesImage self.old self.new bytes.now) }
    {
        let Some(name) = Name::of_bytes(alloc, bytes)? else {
            unreachable!()
        };
        let index = self.images.len() as u32;
        let copy = name.copy(alloc)?;
        self.index.insert(copy, index)?;
        self.images.push(name)?;
        Ok(index)
    }

    fn push_record(&mut self, notice: Record) -> Result<(), AllocError>
        requires records { self.old.records < MOST_RECORDS }
        requires parts { self.old.parts ≤ MOST_PARTS }
        ensures { OnOk result (PushesRecord self.old self.new notice) }
    {
        self.lines.push(Line::Rec(notice))?;
        self.records += 1;
        if notice.ends_part() {
            self.parts += 1;
        }
        self.scans = self.scans && may_precede_scan(&notice);
        Ok(())
    }

    fn push_sample(&mut self, sample: &SampleValues) -> Result<(), AllocError>
        requires room { self.old.samples < MOST_SAMPLES }
        requires aligned { sample.now.pc % 4 ≡ 0 }
        ensures { OnOk result (PushesSample self.old self.new (sample_values sample.now)) }
    {
        let key = Key {
            pid: sample.pid,
            pc: sample.pc,
            event: sample.event,
        };
        self.lines.push(Line::Sample {
            cpu: sample.cpu,
            key,
        })?;
        self.samples += 1;
        self.scans = false;
        Ok(())
    }
}

fn index_of(index: &BTreeMap<Name, u32>, bytes: &[u8]) -> Option<u32>
    ensures { result ≡ get (slice_cmp nat_cmp) index.now bytes.now }
{
    index.get(ImageBytes { bytes }).copied()
}

// The bytes of an image, by which the index finds it before a name is made of them.
#[derive(Clone, Copy)]
struct ImageBytes<'a> {
    bytes: &'a [u8],
}

impl Comparable<Name> for ImageBytes<'_> {
    ghost use Rattle.std.specs.Cmp.Lexicographic.{nat_list_cmp_total};
    ghost use Rattle.std.specs.BTreeMap.Comparable.{le_lt_trans};

    ghost compare = { λ q k. slice_cmp nat_cmp q.bytes.now k };

    ghost respects_cmp = { λ q x y. nat_list_cmp_total.congr q.bytes.now x y };

    ghost below_greater = { λ q x y. le_lt_trans nat_list_cmp_total q.bytes.now x y };

    fn compare(&self, key: &Name) -> Ordering {
        self.bytes.cmp(key.bytes())
    }
}

fn may_precede_scan(notice: &Record) -> bool
    ensures { result ≡ record_may_precede_scan notice.now }
{
    match notice {
        Record::Scan { .. } => true,
        Record::Load { .. } => false,
        Record::Unload { .. } => false,
        Record::Exec { .. } => false,
        Record::Exit { .. } => false,
        Record::Kernel { .. } => true,
        Record::Drain => false,
        Record::Merge => false,
        Record::Epoch => false,
    }
}
