// The way into a run and into a move of operators, and the ranges that the table's operands have.
ghost use Rattle.std.specs.Prelude.{◌≡◌};
ghost use Rattle.refusals.specs.Numbers.{refusal_in, rule_in};
ghost use Rattle.codec.specs.Operands.{largests};
ghost use Rattle.euler.specs.Exec.{limits};
ghost use Rattle.layout.specs.Small.{Small};
ghost use Rattle.table.specs.Check.{answer};
ghost use Rattle.runs.specs.Run.{state, entry};

use codec::Limits;
use codec::operands::largest;
use layout::shape::Shape;
use refusals::{Refusal, ensure};
use table::check::checked;

// May operators be carried out, with their inverses in this log? Not from a start beyond the log, nor on a table that
// does not pass the check. (Undo and redo test the start in the other log, from which they read, before that.)
#[tactic(auto, unfolding(crate::specs::Run::entry))]
pub fn enter(links: &[u16], points: &[i32], log: &[u8], start: usize) -> Result<(), Refusal>
    ensures { answer (refusal_in result) (rule_in result) ≡ entry (state links.now points.now log.now start) }
{
    ensure(start <= log.len(), Refusal::Memory)?;
    checked(links, points)
}

// A table's capacities as limits.
pub fn limits_of(sh: Shape) -> Limits
    requires { Small sh }
    ensures { result ≡ limits sh }
{
    Limits {
        solids: sh.solids as u16,
        faces: sh.faces as u16,
        loops: sh.loops as u16,
        edges: sh.edges as u16,
        vertices: sh.vertices as u16,
    }
}

// The largest number of each kind of operand; built once for a call.
pub fn ranges_of(sh: Shape) -> [u32; 15]
    requires { Small sh }
    ensures { result ≡ largests (limits sh) }
{
    largest(limits_of(sh))
}
