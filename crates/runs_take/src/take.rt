// One pass over an operator of a script: each operand is read, tested for its range and for use, and stored at once.
ghost use Rattle.std.specs.Prelude.{◌≡◌, ℕ, ◌≤◌, ◌<◌, take, leb, IfOk};
ghost use Rattle.laws.specs.Bools.{pick};
ghost use Rattle.refusals.specs.Numbers.{number_of, refusal_in};
ghost use Rattle.codec.specs.Operands.{largests};
ghost use Rattle.layout.specs.Small.{Small};
ghost use Rattle.euler.specs.Exec.{operator_by, limits};
ghost use Rattle.euler_counts.specs.Counts.{Counted};
ghost use Rattle.runs.specs.Run.{read_at, refusal_at};
ghost use Rattle.runs_take.specs.Take.{refused_in, next_in, taken_next, scan_is, joined_by, scan, told_in, settled};
ghost use Rattle.runs_take.specs.Take.{Answers, read_from};

use bounds::ITEM_PLACES;
use codec::operands::{LAST_CODE, from_wire, in_range, pattern_of};
use euler::admit::use_refusal;
use euler_admit::conditions::condition_holds;
use layout::shape::Shape;
use numbers::read_number;
use refusals::{Refusal, ensure};

// The operator taken: its code, and the place behind it.
#[derive(Clone, Copy)]
pub struct Taken {
    pub code: u8,
    pub next: usize,
}

// A refusal, with the place to go on from; on 3, 4 and 5 it is the place handed in.
#[derive(Clone, Copy)]
pub struct Refused {
    pub refusal: Refusal,
    pub next: usize,
}

// A number out of range, else the first item free or in use; `before` is the refusal of the numbers before this one.
fn join_refusal(
    links: &[u16],
    sh: Shape,
    most: &[u32; 15],
    kind: u8,
    n: u32,
    before: Result<(), Refusal>,
) -> Result<(), Refusal>
    requires small { Small sh }
    requires most_value { most.now ≡ largests (limits sh) }
    ensures { refusal_in result ≡ joined_by sh links.now (refusal_in before) kind n }
{
    ensure(in_range(most, kind, n), Refusal::OutOfRange)?;
    before?;
    // ways and coordinates name no item
    if kind > 11 {
        return Ok(());
    }
    use_refusal(links, sh, kind as usize, n as usize)
}

// The first `count` kinds, a number each from `behind` on, stored as operands: the place behind the last number, or 3,
// 5, 6 or 7 and the place behind the last number read.
fn scan_operands(
    links: &[u16],
    sh: Shape,
    script: &[u8],
    behind: usize,
    most: &[u32; 15],
    kinds: [u8; 8],
    count: usize,
    args: &mut [i32; 8],
) -> Result<usize, Refused>
    requires small { Small sh }
    requires most_value { most.now ≡ largests (limits sh) }
    requires count_bound { count ≤ 8 }
    ensures { scan_is (refused_in result) (next_in result) args.new
        ≡ scan sh links.now script.now (take count kinds) 0 behind 0 args.old }
{
    let mut next = behind;
    let mut admitted = Ok(());
    for i in 0..count {
        let kind = kinds[i];
        let Some((n, after)) = read_number(script, next) else {
            return Err(Refused {
                refusal: Refusal::BadNumber,
                next,
            });
        };
        admitted = join_refusal(links, sh, most, kind, n, admitted);
        args[i] = from_wire(kind, n);
        next = after;
    }
    match admitted {
        Ok(()) => Ok(next),
        Err(refusal) => Err(Refused { refusal, next }),
    }
}

// The place to go on from after a refusal: the one handed in where the operator was not read.
fn place_after(e: Refused, at: usize) -> usize
    ensures { result ≡ pick (leb (number_of e.refusal) 5) at e.next }
{
    match e.refusal {
        Refusal::Memory
        | Refusal::Unsound(_)
        | Refusal::BadNumber
        | Refusal::BadCode
        | Refusal::OutOfRange => at,
        _ => e.next,
    }
}

// The condition of an operator that is read and whose items fit; the place to go on from.
fn settle(
    links: &[u16],
    counts: &[u16; ITEM_PLACES],
    sh: Shape,
    at: usize,
    code: u8,
    scanned: Result<usize, Refused>,
    args: &[i32; 8],
) -> Result<usize, Refused>
    requires small { Small sh }
    requires counted { Counted sh links.now counts.now }
    ensures { told_in result
        ≡ settled sh links.now at code (scan_is (refused_in scanned) (next_in scanned) args.now) }
{
    match scanned {
        Ok(next) => {
            if condition_holds(links, counts, sh, code, args) {
                return Ok(next);
            }
            Err(Refused {
                refusal: Refusal::ConditionFails,
                next,
            })
        }
        Err(e) => Err(Refused {
            refusal: e.refusal,
            next: place_after(e, at),
        }),
    }
}

// The place behind the operator whose code was read at `at`, its operands from `behind` on.
fn take_behind(
    links: &[u16],
    counts: &[u16; ITEM_PLACES],
    sh: Shape,
    script: &[u8],
    at: usize,
    code: u8,
    behind: usize,
    most: &[u32; 15],
    args: &mut [i32; 8],
) -> Result<usize, Refused>
    requires small { Small sh }
    requires most_value { most.now ≡ largests (limits sh) }
    requires counted { Counted sh links.now counts.now }
    ensures { Answers sh links.now (read_from sh script.now at code behind) code
        (told_in result) args.new }
{
    let pattern = pattern_of(code);
    let count = pattern.count as usize;
    if count == 0 {
        return Err(Refused {
            refusal: Refusal::BadCode,
            next: at,
        });
    }
    let kinds = pattern.kinds;
    *args = [0i32; 8];
    let scanned = scan_operands(links, sh, script, behind, most, kinds, count, args);
    settle(links, counts, sh, at, code, scanned, args)
}

// The operator that stands at `at`, its code, its operands and the place behind it; or its refusal, 3 to 8.
pub fn take(
    links: &[u16],
    counts: &[u16; ITEM_PLACES],
    sh: Shape,
    script: &[u8],
    at: usize,
    most: &[u32; 15],
    args: &mut [i32; 8],
) -> Result<Taken, Refused>
    requires small { Small sh }
    requires most_value { most.now ≡ largests (limits sh) }
    requires counted { Counted sh links.now counts.now }
    ensures refusal_value { refused_in result ≡ refusal_at sh links.now script.now at }
    ensures next_value { taken_next result ≡ (read_at sh script.now at).next }
    ensures args_after { IfOk result (λ t. operator_by t.code args.new ≡ (read_at sh script.now at).op) }
{
    let Some((n, behind)) = read_number(script, at) else {
        return Err(Refused {
            refusal: Refusal::BadNumber,
            next: at,
        });
    };
    if n > LAST_CODE {
        return Err(Refused {
            refusal: Refusal::BadCode,
            next: at,
        });
    }
    let code = n as u8;
    let next = take_behind(links, counts, sh, script, at, code, behind, most, args)?;
    Ok(Taken { code, next })
}
