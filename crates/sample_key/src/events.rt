//! The events that a performance counter counts, with their codes and names.
ghost use Rattle.std.specs.Prelude.{◌≡◌, ◌≢◌, ◌<◌, ◌↔◌, IsNone, IfSome};
ghost use Rattle.sample_key.specs.declared.events.Event.{Event};
ghost use Rattle.sample_key.specs.Events.{code_of, name_of, event_of_code, event_named};

/// What a performance counter counted when it took the sample: processor cycles, misses of the instruction cache,
/// misses of the data cache, branches predicted wrongly (Anderson et al., ACM TOCS 15(4), section 3). The codes are this
/// project's own.
#[derive(Clone, Copy, Debug, PartialEq, Eq, PartialOrd, Ord)]
pub enum Event {
    /// Processor cycles.
    Cycles,
    /// Misses of the instruction cache.
    Imiss,
    /// Misses of the data cache.
    Dmiss,
    /// Branches that were predicted wrongly.
    Branchmp,
}

impl Event {
    /// The code of the event, 0 to 3 in the order of the variants.
    #[inline]
    pub fn code(self) -> u8
        ensures { result ≡ code_of self }
    {
        match self {
            Event::Cycles => 0,
            Event::Imiss => 1,
            Event::Dmiss => 2,
            Event::Branchmp => 3,
        }
    }

    /// The event of this code; `None` exactly above 3.
    pub fn of_code(code: u8) -> Option<Event>
        ensures found { result ≡ event_of_code code }
        ensures coded { IfSome result (λ e. code_of e ≡ code) }
        ensures none { IsNone result ↔ (3 < code) }
    {
        match code {
            0 => Some(Event::Cycles),
            1 => Some(Event::Imiss),
            2 => Some(Event::Dmiss),
            3 => Some(Event::Branchmp),
            _ => None,
        }
    }

    /// The name of the event in traces and listings: `cycles`, `imiss`, `dmiss`, `branchmp`.
    pub fn name(self) -> &'static [u8]
        ensures { result.now ≡ name_of self }
    {
        match self {
            Event::Cycles => b"cycles",
            Event::Imiss => b"imiss",
            Event::Dmiss => b"dmiss",
            Event::Branchmp => b"branchmp",
        }
    }

    /// The event of this name; `None` exactly where it is the name of none.
    pub fn of_name(name: &[u8]) -> Option<Event>
        ensures found { result ≡ event_named name.now }
        ensures named { IfSome result (λ e. name.now ≡ name_of e) }
        ensures none { IsNone result ↔ ((e : Event) → name.now ≢ name_of e) }
    {
        if name == b"cycles".as_slice() {
            Some(Event::Cycles)
        } else if name == b"imiss".as_slice() {
            Some(Event::Imiss)
        } else if name == b"dmiss".as_slice() {
            Some(Event::Dmiss)
        } else if name == b"branchmp".as_slice() {
            Some(Event::Branchmp)
        } else {
            None
        }
    }
}
