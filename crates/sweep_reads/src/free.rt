// The free numbers of a kind, in rising order, in an array beside the table.
ghost use Rattle.std.specs.Prelude.{◌≡◌, ℕ, ◌+◌, ◌≤◌, ◌<◌};
ghost use Rattle.laws.specs.Sums.{bit};
ghost use Rattle.bounds.specs.Bounds.{most_items, item_places};
ghost use Rattle.chains.specs.Ranked.{taken};
ghost use Rattle.sweep_reads.specs.FreeLaws.{FilledBy};

use bounds::ITEM_PLACES;

// Number n is put after the others if it is free.
fn take(out: &mut [u16; ITEM_PLACES], count: usize, n: usize, free: bool) -> usize
    requires { (count ≤ most_items) × (n < 65536) }
    ensures value { result ≡ count + bit free }
    ensures out_after { out.new ≡ taken out.old count n free }
{
    if free {
        out[count] = n as u16;
        return count + 1;
    }
    count
}

// Those of the numbers 1 to n that are free by the caller's test; how many they are.
pub fn free_numbers<F: Fn(usize) -> bool>(
    n: usize,
    out: &mut [u16; ITEM_PLACES],
    is_free: F,
) -> usize
    requires few { n ≤ most_items }
    requires callable { (k : ℕ) → 1 ≤ k → k ≤ n → F.pre is_free k }
    ensures { FilledBy (F.post is_free) n item_places out.new result }
{
    *out = [0u16; ITEM_PLACES];
    let mut count: usize = 0;
    for k in 0..n {
        count = take(out, count, k + 1, is_free(k + 1));
    }
    count
}
