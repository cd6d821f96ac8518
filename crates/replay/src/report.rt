// What is written to standard output. What cannot be written is lost.
ghost use Rattle.std.specs.Prelude.{◌≡◌, ◌≤◌};
ghost use Rattle.replay.specs.List.{told};

use crate::compare::Differs;
use crate::list::Tally;

// A block's line. Its name is the file's up to its first dot.
pub fn print_tally(rt: &impl Print, file: &str, tally: Tally) {
    let name = file.split_once('.').map_or(file, |(name, _)| name);
    let _ = println!(rt; "{name} {tally}");
}

// The last line.
pub fn print_total(rt: &impl Print, tally: Tally) {
    let _ = println!(rt; "total {tally}");
}

// Tells of a line that differs. 1 for such a line, 0 for another.
pub fn tell(rt: &impl Print, file: &str, line: u64, verdict: Result<(), Differs>) -> u64
    ensures value { result ≡ told verdict }
    ensures upper_bound { result ≤ 1 }
{
    match verdict {
        Ok(()) => 0,
        Err(differs) => {
            let _ = println!(rt; "{file} line {line}{differs}");
            1
        }
    }
}
