// The lines that soak writes. None but the last has more than 32 bytes.
ghost use Rattle.std.specs.Prelude.{◌≡◌};
ghost use Rattle.lines.specs.Forms.{form_of};

use crate::put::Out;
use blocks::Block;
use dynamics::Reply;
use reals::word_of;
use text::{flag_digit, word_text};

fn name_of(block: Block) -> &'static [u8]
    ensures { result.now ≡ (form_of block).name }
{
    match block {
        Block::Pid(_) => b"Pid",
        Block::PidWithReset(_) => b"PidWithReset",
        Block::MovingAverage { .. } => b"MovingAverage",
        Block::TimerAccumulating { .. } => b"TimerAccumulating",
        Block::TrueDelay { .. } => b"TrueDelay",
        Block::TrueFalseHold { .. } => b"TrueFalseHold",
        Block::TrueHoldWithReset { .. } => b"TrueHoldWithReset",
        Block::LogicalVariablePulse { .. } => b"LogicalVariablePulse",
    }
}

impl Out<'_> {
    ghost use Rattle.reals.specs.Words.{word_of};
    ghost use Rattle.dynamics.specs.Answer.{said};
    ghost use Rattle.text.specs.Items.{flag_text};
    ghost use Rattle.text.specs.Word.{word_text};
    ghost use Rattle.lines.specs.Forms.{form_of};
    ghost use Rattle.session.specs.Answers.{bad_text, block_text, refusal_text, counts_text, outputs_text, answer_text};
    ghost use Rattle.session.specs.Put.{HasRoom, Puts};

    // A malformed line.
    pub(crate) fn put_bad(&mut self)
        requires { HasRoom self.old 32 }
        ensures { Puts self.old bad_text self.new }
    {
        self.put_bytes(b"bad\n");
    }

    // A refusal.
    #[tactic(auto, using(text::proofs::Lengths::length_decimal_most))]
    pub(crate) fn put_refusal(&mut self, n: u64)
        requires { HasRoom self.old 32 }
        ensures { Puts self.old (refusal_text n) self.new }
    {
        self.put_bytes(b"refused ");
        self.put_decimal(n);
        self.put_byte(b'\n');
    }

    // A block that starts.
    #[tactic(auto, using(crate::proofs::Short::name_short))]
    pub(crate) fn put_block(&mut self, block: Block)
        requires { HasRoom self.old 32 }
        ensures { Puts self.old (block_text block) self.new }
    {
        self.put_bytes(b"block ");
        self.put_bytes(name_of(block));
        self.put_byte(b'\n');
    }

    fn put_real(&mut self, x: f64)
        requires { HasRoom self.old 16 }
        ensures { Puts self.old (word_text (word_of x)) self.new }
    {
        self.put_bytes(&word_text(word_of(x)));
    }

    fn put_boolean(&mut self, b: bool)
        requires { HasRoom self.old 1 }
        ensures { Puts self.old (flag_text b) self.new }
    {
        self.put_byte(flag_digit(b));
    }

    // The outputs that the block has.
    #[tactic(auto, using(text::proofs::Lengths::length_word), unfolding(crate::specs::Answers::outputs_text, crate::specs::Answers::output_text))]
    fn put_outputs(&mut self, block: Block, reply: Reply)
        requires { HasRoom self.old 18 }
        ensures { Puts self.old (outputs_text (form_of block).outputs (said reply)) self.new }
    {
        match block {
            Block::Pid(_) | Block::PidWithReset(_) | Block::MovingAverage { .. } => {
                self.put_real(reply.real);
            }
            Block::TimerAccumulating { .. } => {
                self.put_real(reply.real);
                self.put_byte(b' ');
                self.put_boolean(reply.boolean);
            }
            Block::TrueDelay { .. }
            | Block::TrueFalseHold { .. }
            | Block::TrueHoldWithReset { .. }
            | Block::LogicalVariablePulse { .. } => self.put_boolean(reply.boolean),
        }
    }

    // An accepted tick.
    pub(crate) fn put_answer(&mut self, block: Block, reply: Reply)
        requires { HasRoom self.old 32 }
        ensures { Puts self.old (answer_text block (said reply)) self.new }
    {
        self.put_outputs(block, reply);
        self.put_byte(b'\n');
    }

    // The counts, which end the output.
    #[tactic(auto, using(text::proofs::Lengths::length_decimal_most))]
    pub(crate) fn put_counts(&mut self, accepted: u64, refused: u64)
        requires { HasRoom self.old 64 }
        ensures { Puts self.old (counts_text accepted refused) self.new }
    {
        self.put_bytes(b"ticks ");
        self.put_decimal(accepted);
        self.put_bytes(b" refused ");
        self.put_decimal(refused);
        self.put_byte(b'\n');
    }
}
