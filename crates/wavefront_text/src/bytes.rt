// Bytes put into a buffer, one behind the other; each call answers the place behind what it put. What is past the
// buffer's end is left out, so that one code measures a text and writes it.
ghost use Rattle.std.specs.Prelude.{◌≡◌, [], ◌∷◌, ℕ, ◌+◌, ◌≤◌, ◌<◌, ℤ, nat_abs, T};
ghost use Rattle.layout.specs.Points.{range_test};
ghost use Rattle.text.specs.Decimal.{decimal};
ghost use Rattle.text.specs.Put.{Put};
ghost use Rattle.wavefront.specs.Obj.{hundredths, millimetres, spaced};

// One byte.
pub fn put_byte(out: &mut [u8], at: usize, b: u8) -> usize
    requires { at + 1 ≤ 4294967296 }
    ensures { Put out.old at (b ∷ []) result out.new }
{
    if at < out.len() {
        out[at] = b;
        return at + 1;
    }
    at + 1
}

// A number of at most four digits, in decimal.
pub fn put_number(out: &mut [u8], at: usize, n: usize) -> usize
    requires { (at + 4 ≤ 4294967296) × (n < 10000) }
    ensures { Put out.old at (decimal n) result out.new }
{
    if n < 10 {
        return put_byte(out, at, 48 + n as u8);
    }
    let last = put_number(out, at, n / 10);
    put_byte(out, last, 48 + (n % 10) as u8)
}

// So many hundredths, with a point and two decimals.
fn put_hundredths(out: &mut [u8], at: usize, n: usize) -> usize
    requires { (at + 6 ≤ 4294967296) × (n ≤ 50000) }
    ensures { Put out.old at (hundredths n) result out.new }
{
    let point = put_number(out, at, n / 100);
    let tens = put_byte(out, point, b'.');
    let ones = put_byte(out, tens, 48 + (n % 100 / 10) as u8);
    put_byte(out, ones, 48 + (n % 10) as u8)
}

// How far a number is from 0.
fn magnitude(x: i32) -> usize
    ensures { result ≡ nat_abs x }
{
    if x < 0 {
        return (-1 - x) as usize + 1;
    }
    x as usize
}

// A space and a coordinate in millimetres.
pub fn put_coordinate(out: &mut [u8], at: usize, c: i32) -> usize
    requires { (at + 8 ≤ 4294967296) × T (range_test c) }
    ensures { Put out.old at (spaced (millimetres c)) result out.new }
{
    let place = put_byte(out, at, b' ');
    if c < 0 {
        let digits = put_byte(out, place, b'-');
        return put_hundredths(out, digits, magnitude(c));
    }
    put_hundredths(out, place, magnitude(c))
}
