// Classes of the numbers 0 to 4,096 as a forest: each number has a parent, a root is its own, and a class is what has
// one root.
ghost use Rattle.std.specs.Prelude.{◌≡◌, ℕ, ◌≤◌, length};
ghost use Rattle.laws.specs.UnionFind.{root, SameRoots, United};
ghost use Rattle.bounds.specs.Bounds.{item_places, most_items};
ghost use Rattle.check_shells.specs.Forest.{Forest, Apart};

use bounds::ITEM_PLACES;

// Each number becomes its own parent.
pub fn separate(parent: &mut [u16; ITEM_PLACES])
    requires { length parent.old ≡ item_places }
    ensures { Apart parent.new item_places }
{
    for (i, p) in parent.iter_mut().enumerate() {
        *p = i as u16;
    }
}

// The root of x. On the way numbers get their grandparents as parents (path halving): no root changes, and later walks
// are short.
pub fn find_root(parent: &mut [u16; ITEM_PLACES], x: usize) -> usize
    requires forest { Forest parent.old }
    requires x_le_most_items { x ≤ most_items }
    ensures { (result ≡ root parent.old x) × (result ≤ x)
        × SameRoots parent.old parent.new }
{
    // Kept: the walk ends at a root, and counts no index.
    let mut k = x;
    let mut p = usize::from(parent[k]);
    while p != k {
        let grand = parent[p];
        parent[k] = grand;
        k = usize::from(grand);
        p = usize::from(parent[k]);
    }
    k
}

// The classes of x and y become one: the larger root gets the smaller one as its parent, so parents never rise.
pub fn unite(parent: &mut [u16; ITEM_PLACES], x: usize, y: usize)
    requires forest { Forest parent.old }
    requires x_le_most_items { (x ≤ most_items) × (y ≤ most_items) }
    ensures { United parent.old parent.new x y }
{
    let a = find_root(parent, x);
    let b = find_root(parent, y);
    if a < b {
        parent[b] = a as u16;
        return;
    }
    parent[a] = b as u16;
}
