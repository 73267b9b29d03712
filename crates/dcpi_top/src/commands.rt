//! The forms of commands.
ghost use Rattle.std.specs.Prelude.{◌≡◌, map, option_and_then, string_bytes};
ghost use Rattle.text_num.specs.Numbers.{number};
ghost use Rattle.dcpi_top.specs.Commands.{command_alone, command_listing, command_making, command_of, command_on, command_tracing, csv_named, epochs_named, listing_named, listing_of, making_of, samples_in};

use dcpiprof_report::Epochs;
use sample_key::{Event, MOST_SAMPLES};
use text_num::read_dec;

/// What the words ask for.
#[derive(Clone, Copy, Debug, PartialEq, Eq)]
pub enum Command {
    /// Read a trace and print its counts by place.
    Plain,
    /// Read a trace, replay it into the database and print the summary of the run.
    Replay,
    /// List what the database counts by image.
    ProfImage {
        /// The epochs that are counted.
        epochs: Epochs,
        /// The event that is counted.
        event: Event,
        /// Whether the listing is CSV, else text.
        csv: bool,
    },
    /// Read a symbol list, and list what the database counts by procedure.
    ProfProcedure {
        /// The epochs that are counted.
        epochs: Epochs,
        /// The event that is counted.
        event: Event,
        /// Whether the listing is CSV, else text.
        csv: bool,
    },
    /// Print all counts of the database.
    Cat,
    /// Print the runs of the database, each with its tally.
    Runs,
    /// Remove the files that the database does not use, and print how many they were.
    Tidy,
    /// Make the trace of a seed, and print the summary of its run, as the first one into an empty database, or the trace.
    Make {
        /// The number that determines the trace.
        seed: u64,
        /// How many samples it has, at most 2,000,000.
        samples: u32,
        /// Whether the trace is printed, else the summary.
        trace: bool,
    },
}

/// The command of the words behind the program's name; `None` where they have no form of a command. Where a command has a
/// database, the second word names it, and may be any word.
pub fn words_of(words: &Vec<String>) -> Option<Command>
    ensures { result ≡ command_of (map string_bytes words.now.items) }
{
    match words.as_slice() {
        [] => None,
        [word] => command_alone(word.as_bytes()),
        [word, _] => command_on(word.as_bytes()),
        [word, seed, samples] => {
            command_making(word.as_bytes(), seed.as_bytes(), samples.as_bytes())
        }
        [word, seed, samples, form] => command_tracing(
            word.as_bytes(),
            seed.as_bytes(),
            samples.as_bytes(),
            form.as_bytes(),
        ),
        [_, _, _, _, _] => None,
        [word, _, kind, epoch, event, form] => command_listing(
            word.as_bytes(),
            kind.as_bytes(),
            epoch.as_bytes(),
            event.as_bytes(),
            form.as_bytes(),
        ),
        [_, _, _, _, _, _, _, ..] => None,
    }
}

fn command_alone(word: &[u8]) -> Option<Command>
    ensures { result ≡ command_alone word.now }
{
    if word == b"plain".as_slice() {
        Some(Command::Plain)
    } else {
        None
    }
}

fn command_on(word: &[u8]) -> Option<Command>
    ensures { result ≡ command_on word.now }
{
    if word == b"replay".as_slice() {
        Some(Command::Replay)
    } else if word == b"cat".as_slice() {
        Some(Command::Cat)
    } else if word == b"runs".as_slice() {
        Some(Command::Runs)
    } else if word == b"tidy".as_slice() {
        Some(Command::Tidy)
    } else {
        None
    }
}

fn command_making(word: &[u8], seed: &[u8], samples: &[u8]) -> Option<Command>
    ensures { result ≡ command_making word.now seed.now samples.now }
{
    if word == b"make".as_slice() {
        making_of(seed, samples, false)
    } else {
        None
    }
}

fn command_tracing(word: &[u8], seed: &[u8], samples: &[u8], form: &[u8]) -> Option<Command>
    ensures { result ≡ command_tracing word.now seed.now samples.now form.now }
{
    if form == b"--trace".as_slice() {
        if word == b"make".as_slice() {
            making_of(seed, samples, true)
        } else {
            None
        }
    } else {
        None
    }
}

fn making_of(seed: &[u8], samples: &[u8], trace: bool) -> Option<Command>
    ensures { result ≡ making_of seed.now samples.now trace }
{
    let seed = read_dec(seed)?;
    let samples = samples_named(samples)?;
    Some(Command::Make {
        seed,
        samples,
        trace,
    })
}

fn samples_named(word: &[u8]) -> Option<u32>
    ensures { result ≡ option_and_then samples_in (number 10 word.now) }
{
    let samples = read_dec(word)?;
    if samples > MOST_SAMPLES {
        return None;
    }
    Some(samples as u32)
}

fn command_listing(
    word: &[u8],
    kind: &[u8],
    epoch: &[u8],
    event: &[u8],
    form: &[u8],
) -> Option<Command>
    ensures { result ≡ command_listing word.now kind.now epoch.now event.now form.now }
{
    if word == b"prof".as_slice() {
        listing_named(kind, epoch, event, form)
    } else {
        None
    }
}

fn listing_named(kind: &[u8], epoch: &[u8], event: &[u8], form: &[u8]) -> Option<Command>
    ensures { result ≡ listing_named kind.now epoch.now event.now form.now }
{
    let epochs = epochs_named(epoch)?;
    let event = Event::of_name(event)?;
    let csv = csv_named(form)?;
    listing_of(kind, epochs, event, csv)
}

fn epochs_named(word: &[u8]) -> Option<Epochs>
    ensures { result ≡ epochs_named word.now }
{
    if word == b"all".as_slice() {
        return Some(Epochs::All);
    }
    let epoch = read_dec(word)?;
    if epoch > u64::from(u32::MAX) {
        return None;
    }
    Some(Epochs::One(epoch as u32))
}

fn csv_named(word: &[u8]) -> Option<bool>
    ensures { result ≡ csv_named word.now }
{
    if word == b"csv".as_slice() {
        Some(true)
    } else if word == b"text".as_slice() {
        Some(false)
    } else {
        None
    }
}

fn listing_of(kind: &[u8], epochs: Epochs, event: Event, csv: bool) -> Option<Command>
    ensures { result ≡ listing_of kind.now epochs event csv }
{
    if kind == b"image".as_slice() {
        Some(Command::ProfImage { epochs, event, csv })
    } else if kind == b"procedure".as_slice() {
        Some(Command::ProfProcedure { epochs, event, csv })
    } else {
        None
    }
}
