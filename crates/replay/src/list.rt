// The stored lists, a call to a line.
ghost use Rattle.std.specs.Prelude.{◌≡◌, ◌≤◌, length};
ghost use Rattle.replay.specs.List.{LineShown, AllHold, Counted};

use crate::call::replay;
use crate::compare::Differs;
use crate::form::{Form, KINDS, Kind};
use crate::line::read_words;
use crate::region::Regions;
use crate::report::{print_tally, tell};
use std::fmt;
use std::fs::File;
use std::io::Read;
use std::rt::Files;
use text::end_of;

// How many calls were replayed, and how many of them differ.
#[derive(Clone, Copy, Debug, PartialEq, Eq)]
pub struct Tally {
    pub calls: u64,
    pub differ: u64,
}

impl fmt::Display for Tally {
    fn fmt<W: fmt::Write>(&self, f: &mut fmt::Formatter<W>) -> fmt::Result {
        let calls = self.calls;
        let differ = self.differ;
        write!(f, "{calls} calls, {differ} differ")
    }
}

// Replays a line.
fn replay_line(form: Form, line: &[u8], regions: &mut Regions<'_>) -> Result<(), Differs>
    ensures { LineShown form line.now result }
{
    let mut words = [0u64; 64];
    let n = read_words(line, &mut words).ok_or(Differs::Malformed)?;
    replay(form, &words[..n], regions)
}

// Replays every line, and tells of each that differs. Where none does, the block agrees with every line.
fn replay_lines(
    rt: &impl Print,
    form: Form,
    file: &str,
    lines: &[u8],
    regions: &mut Regions<'_>,
) -> Tally
    ensures counted { Counted (length lines.now) result }
    ensures all_hold { result.differ ≡ 0 → AllHold form lines.now 0 }
{
    let mut calls: u64 = 0;
    let mut differ: u64 = 0;
    // The library's `split` makes an empty piece of the end behind a last line feed, and of no text at all, which are no lines here.
    let mut at = 0;
    while at < lines.len() {
        let end = end_of(lines, at, b'\n');
        let verdict = replay_line(form, &lines[at..end], regions);
        calls += 1;
        differ += tell(rt, file, calls, verdict);
        if end == lines.len() {
            break;
        }
        at = end + 1;
    }
    Tally { calls, differ }
}

// Reads until there is no more room, the input ends or a read fails. How many bytes were read. Of the library's calls that read more
// than once `read_exact` does not say how many came, and `read_to_end` takes memory.
fn read_full(input: &mut impl Read, bytes: &mut [u8]) -> usize
    ensures { result ≤ length bytes.new }
{
    let mut done = 0;
    while done < bytes.len() {
        let n = input.read(&mut bytes[done..]).unwrap_or(0);
        if n == 0 {
            break;
        }
        done += n;
    }
    done
}

// Reads a file, as far as it can be read. How many bytes were read.
fn read_file(rt: &impl Files, file: &str, bytes: &mut [u8]) -> usize
    ensures { result ≤ length bytes.new }
{
    match File::open(rt, file) {
        Ok(mut input) => read_full(&mut input, bytes),
        Err(_) => 0,
    }
}

// Replays the list of a block. A file that cannot be read has no calls.
fn replay_list(
    rt: &(impl Files + Print),
    kind: Kind,
    bytes: &mut [u8],
    regions: &mut Regions<'_>,
) -> Tally
    ensures { Counted (length bytes.old) result }
{
    let file = kind.file();
    let n = read_file(rt, file, bytes);
    let tally = replay_lines(rt, kind.form(), file, &bytes[..n], regions);
    print_tally(rt, file, tally);
    tally
}

// Replays the lists of all eight blocks.
pub(crate) fn replay_all(
    rt: &(impl Files + Print),
    bytes: &mut [u8],
    regions: &mut Regions<'_>,
) -> Tally
    requires { length bytes.old ≤ 262144 }
{
    let mut calls: u64 = 0;
    let mut differ: u64 = 0;
    for kind in KINDS {
        let tally = replay_list(rt, kind, bytes, regions);
        calls += tally.calls;
        differ += tally.differ;
    }
    Tally { calls, differ }
}
