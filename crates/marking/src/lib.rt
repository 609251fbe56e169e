// Marks of numbers: a byte for each number, 1 where it is marked.

#![tactic(auto)]

ghost use Rattle.std.specs.Prelude.{◌≡◌, set};

// Number k marked; past the end nothing changes.
pub fn put_mark(marks: &mut [u8], k: usize)
    ensures { marks.new ≡ set marks.old k 1 }
{
    if k < marks.len() {
        marks[k] = 1;
    }
}
