// What soak does with a line. Region and `out` are two arguments: with both in one struct, tried, it is not known what the array of
// `feed` holds that was lent to it as a slice, nor what a block leaves in a part of a field's words.
ghost use Rattle.std.specs.Prelude.{◌≡◌, Ok};
ghost use Rattle.dynamics.specs.Answer.{length_read};
ghost use Rattle.dynamics.specs.Machine.{length_answer};
ghost use Rattle.blocks.specs.Block.{machine_of};
ghost use Rattle.session.specs.Put.{HasRoom};
ghost use Rattle.session.specs.Stream.{one_more, first_starts, first_names, tick_goes, goes_on, line_in, Goes};

use crate::put::Out;
use crate::state::{Run, Session};
use blocks::{Block, Tick};
use lines::{first_line, later_line};

// One more, up to the largest number.
#[tactic(auto, unfolding(crate::specs::Stream::one_more))]
fn one_more(n: u64) -> u64
    ensures { result ≡ one_more n }
{
    n.saturating_add(1)
}

// Starts a block in the first n words of the region, as many as its state has.
#[tactic(auto, unfolding(crate::specs::Stream::first_starts))]
fn start_block(block: Block, n: usize, region: &mut [u64], out: &mut Out<'_>) -> Session
    requires room { HasRoom out.old 32 }
    requires length { length_read (Ok n) ≡ length_answer (machine_of block) }
    ensures { Goes (first_starts region.old block n) result region.new out.old out.new }
{
    if region.len() < n {
        out.put_bad();
        return Session::Over;
    }
    blocks::start(block, &mut region[..n]).unwrap();
    out.put_block(block);
    Session::Running(Run {
        block,
        accepted: 0,
        refused: 0,
    })
}

// Answers the first line.
#[tactic(auto, unfolding(crate::specs::Stream::first_names))]
fn open_with(named: Option<Block>, region: &mut [u64], out: &mut Out<'_>) -> Session
    requires { HasRoom out.old 32 }
    ensures { Goes (first_names region.old named) result region.new out.old out.new }
{
    let Some(block) = named else {
        out.put_bad();
        return Session::Over;
    };
    match blocks::state_length(block) {
        Ok(n) => start_block(block, n, region, out),
        Err(refusal) => {
            out.put_refusal(u64::from(refusal));
            Session::Over
        }
    }
}

// Runs a tick of the block in the first words of the region.
#[tactic(auto, unfolding(crate::specs::Stream::tick_goes, crate::specs::Stream::tick_answered), using(crate::proofs::Putting::puts_none))]
fn tick_in(run: Run, tick: Tick, region: &mut [u64], out: &mut Out<'_>) -> Session
    requires { HasRoom out.old 32 }
    ensures { Goes (tick_goes region.old run tick) result region.new out.old out.new }
{
    let n = blocks::state_length(run.block).unwrap_or(0);
    if region.len() < n {
        return Session::Over;
    }
    match blocks::tick(run.block, tick, &mut region[..n]) {
        Ok(reply) => {
            out.put_answer(run.block, reply);
            Session::Running(Run {
                accepted: one_more(run.accepted),
                ..run
            })
        }
        Err(refusal) => {
            out.put_refusal(u64::from(refusal));
            Session::Running(Run {
                refused: one_more(run.refused),
                ..run
            })
        }
    }
}

// Answers a later line.
#[tactic(auto, unfolding(crate::specs::Stream::goes_on))]
fn go_on(run: Run, line: &[u8], region: &mut [u64], out: &mut Out<'_>) -> Session
    requires { HasRoom out.old 32 }
    ensures { Goes (goes_on region.old run line.now) result region.new out.old out.new }
{
    let Some(tick) = later_line(run.block, line) else {
        out.put_bad();
        return Session::Running(run);
    };
    tick_in(run, tick, region, out)
}

// Answers a line.
#[tactic(auto, unfolding(crate::specs::Stream::line_in), using(crate::proofs::Putting::puts_none))]
pub(crate) fn line_in(
    session: Session,
    line: &[u8],
    region: &mut [u64],
    out: &mut Out<'_>,
) -> Session
    requires { HasRoom out.old 32 }
    ensures { Goes (line_in region.old session line.now) result region.new out.old out.new }
{
    match session {
        Session::Fresh => open_with(first_line(line), region, out),
        Session::Running(run) => go_on(run, line, region, out),
        Session::Over => Session::Over,
    }
}
