// The operators of the take-down as records.
ghost use Rattle.std.specs.Prelude.{◌≡◌, ℕ, ◌<◌};
ghost use Rattle.takedown.specs.Inversion as inversion;

use script::{Operator, blank, with_number};

pub fn kvsf(s: usize) -> Operator
    requires { s < 65536 }
    ensures { result ≡ inversion.kvsf s }
{
    with_number(blank(2, 1), 0, s)
}

pub fn kev(k: usize) -> Operator
    requires { k < 65536 }
    ensures { result ≡ inversion.kev k }
{
    with_number(blank(4, 1), 0, k)
}

pub fn kef(k: usize) -> Operator
    requires { k < 65536 }
    ensures { result ≡ inversion.kef k }
{
    with_number(blank(6, 1), 0, k)
}

pub fn kemr(k: usize, l: usize) -> Operator
    requires { (k < 65536) × (l < 65536) }
    ensures { result ≡ inversion.kemr k l }
{
    with_number(with_number(blank(7, 2), 0, k), 1, l)
}

// At two lone corners, w = 0.
pub fn mekr(l: usize, l2: usize, e: usize) -> Operator
    requires { (l < 65536) × (l2 < 65536) × (e < 65536) }
    ensures { result ≡ inversion.mekr l l2 e }
{
    let a = with_number(blank(8, 6), 0, l);
    let b = with_number(a, 1, 0);
    let c = with_number(b, 2, l2);
    let d = with_number(c, 3, 0);
    with_number(with_number(d, 4, e), 5, 0)
}

// With s = 0: the new face stays linked.
pub fn mfkrh(l: usize, f: usize) -> Operator
    requires { (l < 65536) × (f < 65536) }
    ensures { result ≡ inversion.mfkrh l f }
{
    let a = with_number(blank(10, 3), 0, l);
    with_number(with_number(a, 1, f), 2, 0)
}

pub fn rmov(l: usize, f: usize) -> Operator
    requires { (l < 65536) × (f < 65536) }
    ensures { result ≡ inversion.rmov l f }
{
    with_number(with_number(blank(13, 2), 0, l), 1, f)
}
