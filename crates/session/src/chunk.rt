// The input chunk by chunk, and its end.
ghost use Rattle.std.specs.Prelude.{◌≡◌, ◌*◌, ◌/◌, ◌≤◌, min, length, take};
ghost use Rattle.session.specs.Put.{Counts, HasRoom, Puts};
ghost use Rattle.session.specs.Stream.{held_more, held_with, at_hand, streamed, Feeds, closing, Finishes};

use crate::line::line_in;
use crate::put::Out;
use crate::state::Session;

// The longest part of a line that is held: one byte more than a line may have.
const HELD: usize = 256;

// The most bytes that a line is answered with.
const ROOM: usize = 32;

// Where a chunk has led: the session, how many bytes of a line are held, how many of the chunk were taken, and how many were written.
#[derive(Clone, Copy)]
pub struct Fed {
    pub session: Session,
    pub held: usize,
    pub used: usize,
    pub wrote: usize,
}

// Holds one more byte of a line. Of a line that is too long no more is held.
#[tactic(auto, unfolding(crate::specs::Stream::held_more, crate::specs::Stream::held_with))]
fn hold_byte(carry: &mut [u8; 256], held: usize, b: u8) -> usize
    ensures value { result ≡ held_more held }
    ensures carry_after { carry.new ≡ held_with carry.old held b }
{
    if held < HELD {
        carry[held] = b;
        return held + 1;
    }
    held
}

// Session, held bytes and region are arguments of their own in `feed` and `finish`, as docs/CONTRACTS.md has the two calls and
// `feed_once_carry`, `finish_once_region` and the three beside them speak of each.

// Takes as much of a chunk as `out` has room to answer: 32 bytes for each byte. A line that the chunk cuts is held in `carry`.
pub fn feed(
    session: Session,
    held: usize,
    carry: &mut [u8; 256],
    chunk: &[u8],
    region: &mut [u64; 4110],
    out: &mut [u8],
) -> Fed
    ensures used { result.used ≡ min (length chunk.now) (length out.old / 32) }
    ensures feeds { Feeds (streamed (at_hand session region.old carry.old held) (take result.used chunk.now)) result.session region.new carry.new result.held out.old result.wrote out.new }
    ensures counts { Counts result.wrote out.new }
{
    let used = chunk.len().min(out.len() / ROOM);
    let mut session = session;
    let mut held = held;
    let mut out = Out { bytes: out, at: 0 };
    for &b in &chunk[..used] {
        if b == b'\n' {
            let n = held.min(carry.len());
            session = line_in(session, &carry[..n], region, &mut out);
            held = 0;
        } else {
            held = hold_byte(carry, held, b);
        }
    }
    Fed {
        session,
        held,
        used,
        wrote: out.at,
    }
}

// What ends the output.
fn put_closing(out: &mut Out<'_>, session: Session)
    requires { HasRoom out.old 64 }
    ensures { Puts out.old (closing session) out.new }
{
    match session {
        Session::Fresh => out.put_bad(),
        Session::Running(run) => out.put_counts(run.accepted, run.refused),
        Session::Over => {}
    }
}

// Ends the input: answers a line that has no end, and writes the counts. How many bytes were written.
pub fn finish(
    session: Session,
    held: usize,
    carry: &[u8; 256],
    region: &mut [u64; 4110],
    out: &mut [u8; 128],
) -> usize
    ensures finishes { Finishes (at_hand session region.old carry.now held) region.new out.old result out.new }
    ensures counts { Counts result out.new }
{
    let mut out = Out { bytes: out, at: 0 };
    if held == 0 {
        put_closing(&mut out, session);
        return out.at;
    }
    let n = held.min(carry.len());
    let last = line_in(session, &carry[..n], region, &mut out);
    put_closing(&mut out, last);
    out.at
}
