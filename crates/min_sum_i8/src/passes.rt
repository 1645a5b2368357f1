// Min-sum: the passes.
ghost use Rattle.std.specs.Prelude.{◌≡◌};
ghost use Rattle.maths.specs.Budget as budget;
ghost use Rattle.maths.specs.Budget.{end};
ghost use Rattle.min_sum.specs.Confidence.{i8};
ghost use Rattle.min_sum.specs.Working.{Alike, held, turn_in};

use messages_i8::Messages;
use report::Ended;

// (As bit_flip's, but for the pass: a trait with a turn and its law, for two loops of a line, would be no plainer.)
pub(crate) fn run_passes(messages: &mut Messages<'_>, limit: usize) -> Ended
    ensures ran { end result.success result.iters (held messages.new) ≡ budget.run (turn_in i8 messages.old) limit 0 (held messages.old) }
    ensures alike { Alike messages.old messages.new }
{
    for pass in 0..limit {
        if messages.pass() {
            return Ended {
                success: true,
                iters: pass,
            };
        }
    }
    Ended {
        success: false,
        iters: limit,
    }
}
