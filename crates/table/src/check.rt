// Checking a table: is it sound, and if not, which rule is the lowest that is broken.
ghost use Rattle.std.specs.Prelude.{◌≡◌};
ghost use Rattle.refusals.specs.Numbers.{refusal_in, rule_in};
ghost use Rattle.table.specs.Check.{answer, check_of};

use crate::sizes::table_fits;
use check_rules::rules::broken_rule;
use layout::shape::shape_of;
use refusals::{Refusal, ensure};

#[repr(C)]
#[derive(Clone, Copy)]
pub struct CheckAnswer {
    pub refusal: u8,
    pub rule: u8,
}

// Whether a table is sound: the memory it is lent is of the right size, and no rule is broken, else the lowest.
pub fn checked(links: &[u16], points: &[i32]) -> Result<(), Refusal>
    ensures { answer (refusal_in result) (rule_in result) ≡ check_of links.now points.now }
{
    ensure(table_fits(links, points), Refusal::Memory)?;
    broken_rule(links, points, shape_of(links)).map_err(Refusal::Unsound)
}

// Refusal 1 for a capacity that is not 1 to 4,096 or a slice that is not exactly as long as the capacities say; then 2
// with the lowest broken rule; 0 for a sound table. The rule is 0 unless the refusal is 2.
pub fn check(links: &[u16], points: &[i32]) -> CheckAnswer
    ensures { result ≡ check_of links.now points.now }
{
    match checked(links, points) {
        Ok(()) => CheckAnswer {
            refusal: 0,
            rule: 0,
        },
        Err(refusal) => CheckAnswer {
            refusal: refusal.number(),
            rule: refusal.rule(),
        },
    }
}
