// The question on an expression: its nodes are valued, and the rows go to the lent buffer.
ghost use Rattle.std.specs.Prelude.{◌≡◌, ℕ, length};
ghost use Rattle.operands.specs.Promises.{Answers};
ghost use Rattle.expression.specs.MeaningExpression.{Expr};
ghost use Rattle.expression.specs.MirrorNodes.{flat, Node};
ghost use Rattle.replay_rows.specs.Asked.{ask_eval};

use instantiables::Instantiables;
use operands::hand_out;
use refusal::Refusal;

// Room for the lists of 6 levels.
const LEVELS: usize = 9984;

// Answers how many rows the expression's list has, or why there is none. The rows are worked out beside the buffer: a refusal leaves it as it was.
pub fn value(nodes: &[u16], buffer: &mut [u16]) -> Result<Instantiables, Refusal>
    requires { Node nodes.now 12 }
    ensures { (e : Expr ℕ) → nodes.now ≡ flat e → Answers (ask_eval e (length buffer.old)) buffer.old result buffer.new }
{
    let mut rows = [0u16; LEVELS];
    let list = evaluation::value(nodes, &mut rows);
    hand_out(list, &rows, buffer)
}
