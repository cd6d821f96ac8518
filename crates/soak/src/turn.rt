// A turn of the program: a read, what is answered to it, and a write.
ghost use Rattle.std.specs.Prelude.{◌≡◌, ◌*◌, ◌≤◌, length, IfOk, OnOk, IfErr};
ghost use Rattle.std.specs.Io.KnownBytes.{Appends};
ghost use Rattle.session.specs.Put.{Counts};
ghost use Rattle.soak.specs.declared.turn.Turn.{Turn};

use session::{Session, feed, finish};
use std::error::Error;
use std::io::{Read, Write};
use std::{fmt, io};

// A turn that went well: how many bytes came, and how many were written for them. `wrote` is this file's own, so nobody else can make
// one up: a turn comes from `take_turn`.
#[derive(Clone, Copy)]
pub(crate) struct Turn {
    pub(crate) read: usize,
    wrote: usize,
}

#[derive(Clone, Copy, Debug)]
enum Task {
    Read,
    Write,
}

// What could not be done, with the system's reason. The fields are this file's own too: it comes from a read or a write that failed.
#[derive(Clone, Copy, Debug)]
pub(crate) struct Failed {
    task: Task,
    reason: io::Error,
}

impl fmt::Display for Failed {
    fn fmt<W: fmt::Write>(&self, f: &mut fmt::Formatter<W>) -> fmt::Result {
        let reason = self.reason;
        match self.task {
            Task::Read => write!(f, "cannot read: {reason}"),
            Task::Write => write!(f, "cannot write: {reason}"),
        }
    }
}

impl Error for Failed {}

// Writes all of some bytes.
fn write_out<W: Write>(output: &mut W, bytes: &[u8]) -> Result<(), Failed>
    ensures written { OnOk result (Appends (W.contents output.old) (W.contents output.new) bytes.now) }
    ensures task { IfErr result (λ failed. failed.task ≡ Task.Write) }
{
    output.write_all(bytes).map_err(|reason| Failed {
        task: Task::Write,
        reason,
    })
}

// Where a run stands: the session, the bytes held of a line that has not ended and how many they are, and the block's region.
#[derive(Drop)]
pub(crate) struct State {
    session: Session,
    held: usize,
    carry: [u8; 256],
    region: [u64; 4110],
}

impl State {
    ghost use Rattle.soak.specs.Run.{Starts, Reached, TurnTaken, Moves, Stops, Closes, ClosesWith};

    // Nothing has been read.
    pub(crate) fn new() -> State
        ensures { Starts result }
    {
        State {
            session: Session::Fresh,
            held: 0,
            carry: [0; 256],
            region: [0; 4110],
        }
    }

    // Reads once, takes all that came, and writes what it is answered with.
    pub(crate) fn take_turn<R: Read, W: Write>(
        &mut self,
        input: &mut R,
        output: &mut W,
        chunk: &mut [u8],
        out: &mut [u8],
    ) -> Result<Turn, Failed>
        requires reached { Reached self.old }
        requires chunk_in_bounds { 32 * length chunk.old ≤ length out.old }
        ensures taken { IfOk result (TurnTaken self.old self.new chunk.new out.new) }
        ensures moves { IfOk result (Moves (R.remaining input.old) (R.remaining input.new) (W.contents output.old) (W.contents output.new) chunk.new out.new) }
        ensures failed { IfErr result (λ failed. (t : Turn) × Stops self.old self.new (R.remaining input.old) (R.remaining input.new) (W.contents output.old) (W.contents output.new) chunk.new out.new t failed) }
    {
        let read = input.read(chunk).map_err(|reason| Failed {
            task: Task::Read,
            reason,
        })?;
        let fed = feed(
            self.session,
            self.held,
            &mut self.carry,
            &chunk[..read],
            &mut self.region,
            out,
        );
        self.session = fed.session;
        self.held = fed.held;
        let wrote = fed.wrote;
        write_out(output, &out[..wrote])?;
        Ok(Turn { read, wrote })
    }

    // Ends the input. How many bytes are left to write.
    fn close(&mut self, out: &mut [u8; 128]) -> usize
        requires { Reached self.old }
        ensures closes { Closes self.old out.new result }
        ensures counts { Counts result out.new }
    {
        finish(self.session, self.held, &self.carry, &mut self.region, out)
    }

    // Writes what is left to write after the last turn.
    pub(crate) fn write_rest<W: Write>(&mut self, output: &mut W) -> Result<(), Failed>
        requires { Reached self.old }
        ensures { OnOk result (ClosesWith self.old (W.contents output.old) (W.contents output.new)) }
    {
        let mut out = [0u8; 128];
        let wrote = self.close(&mut out);
        write_out(output, &out[..wrote])
    }
}
