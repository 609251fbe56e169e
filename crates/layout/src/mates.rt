// The two halves of an edge.
ghost use Rattle.std.specs.Prelude.{◌≡◌, ℕ, ◌+◌, ◌<◌, ◌≤◌};
ghost use Rattle.layout.specs.Mate.{mate, edge_of};

// The other half of k's edge. It may be 65,536, which no word holds.
pub fn mate_of(k: usize) -> usize
    requires { k < 65536 }
    ensures { (result ≡ mate k) × (result ≤ 65536) × (result ≤ k + 1) }
{
    if k % 2 == 1 {
        return k + 1;
    }
    if k == 0 {
        return 0;
    }
    k - 1
}

// The edge of half-edge k.
pub fn edge_of(k: usize) -> usize
    requires { k < 65536 }
    ensures { (result ≡ edge_of k) × (result < 65536) }
{
    (k + 1) / 2
}
