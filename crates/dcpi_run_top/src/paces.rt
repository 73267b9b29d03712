//! The words that ask for a run by threads.
ghost use Rattle.std.specs.Prelude.{◌≡◌, map, string_bytes};
ghost use Rattle.dcpi_run_top.specs.Paces.{pace_behind, pace_named, pace_of, run_named};

use sample_key::Pace;

/// The pace of the run that the words behind the program's name ask for, as `run DB --pace free` or `run DB --pace exact`;
/// `None` where they ask for no run. The second word is the database, and may be any word.
pub fn pace_of(words: &Vec<String>) -> Option<Pace>
    ensures { result ≡ pace_of (map string_bytes words.now.items) }
{
    match words.as_slice() {
        [] => None,
        [_] => None,
        [_, _] => None,
        [_, _, _] => None,
        [word, _, mark, pace] => run_named(word.as_bytes(), mark.as_bytes(), pace.as_bytes()),
        [_, _, _, _, _, ..] => None,
    }
}

fn run_named(word: &[u8], mark: &[u8], pace: &[u8]) -> Option<Pace>
    ensures { result ≡ run_named word.now mark.now pace.now }
{
    if word == b"run".as_slice() {
        pace_behind(mark, pace)
    } else {
        None
    }
}

fn pace_behind(mark: &[u8], pace: &[u8]) -> Option<Pace>
    ensures { result ≡ pace_behind mark.now pace.now }
{
    if mark == b"--pace".as_slice() {
        pace_named(pace)
    } else {
        None
    }
}

fn pace_named(word: &[u8]) -> Option<Pace>
    ensures { result ≡ pace_named word.now }
{
    if word == b"free".as_slice() {
        Some(Pace::Free)
    } else if word == b"exact".as_slice() {
        Some(Pace::Exact)
    } else {
        None
    }
}
