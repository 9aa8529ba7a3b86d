// Groups of linked members: trees in two lists, the parent of each member and the size of each
// tree. A root is its own parent and stands for its group; the smaller tree goes under the larger,
// so no member is more than 11 steps below its root where there are 2,048.
#![tactic(auto)]

ghost use Rattle.std.specs.Prelude.{◌≡◌, ℕ, ◌+◌, ◌<◌, ◌≤◌, length, get_or, replicate};
ghost use Rattle.groups.specs.Forest.{Climbs, Forest, Ready, joined, joined_all, root_of, started, trees, under};
ghost use Rattle.groups.specs.Groups.{links};

// Makes each of n members a group of its own.
fn start(parents: &mut [u16], sizes: &mut [u16], n: usize)
    requires { (n < 65536) × ((n ≤ length parents.old) × (n ≤ length sizes.old)) }
    ensures parents_after { parents.new ≡ (started n parents.old sizes.old).parents }
    ensures sizes_after { sizes.new ≡ (started n parents.old sizes.old).sizes }
{
    for (i, parent) in parents[..n].iter_mut().enumerate() {
        *parent = i as u16;
    }
    sizes[..n].fill(1);
}

// The root of the tree of member i.
fn find(parents: &[u16], i: usize) -> usize
    requires { Climbs parents.now i }
    ensures { result ≡ root_of parents.now i }
{
    // No `for`: it climbs from member to member, up to a root.
    let mut at = i;
    loop {
        let up = parents[at] as usize;
        if up == at {
            break at;
        }
        at = up;
    }
}

// Puts root b under root a.
fn put_under(parents: &mut [u16], sizes: &mut [u16], a: usize, b: usize)
    requires a_bound { (a < 65536) × (b < length parents.old) }
    requires a_in_bounds { (a < length sizes.old) × (b < length sizes.old) }
    requires b_bound { get_or sizes.old a 0 + get_or sizes.old b 0 < 65536 }
    ensures parents_after { parents.new ≡ (under parents.old sizes.old a b).parents }
    ensures sizes_after { sizes.new ≡ (under parents.old sizes.old a b).sizes }
{
    parents[b] = a as u16;
    sizes[a] += sizes[b];
}

// Joins the groups of members i and j, by their roots.
fn join_roots(parents: &mut [u16], sizes: &mut [u16], i: usize, j: usize)
    requires { Ready parents.old sizes.old i j }
    ensures parents_after { parents.new ≡ (joined parents.old sizes.old i j).parents }
    ensures sizes_after { sizes.new ≡ (joined parents.old sizes.old i j).sizes }
{
    let a = find(parents, i);
    let b = find(parents, j);
    if a == b {
        return;
    }
    if sizes[a] < sizes[b] {
        put_under(parents, sizes, b, a);
    } else {
        put_under(parents, sizes, a, b);
    }
}

// Joins the groups of members i and j. Two with the same parent are in one group already.
fn join(parents: &mut [u16], sizes: &mut [u16], i: usize, j: usize)
    requires { Ready parents.old sizes.old i j }
    ensures parents_after { parents.new ≡ (joined parents.old sizes.old i j).parents }
    ensures sizes_after { sizes.new ≡ (joined parents.old sizes.old i j).sizes }
{
    if parents[i] == parents[j] {
        return;
    }
    join_roots(parents, sizes, i, j);
}

// Joins the groups of a[k] and b[k], for each k in sequence. The members are the numbers below n.
fn join_all(parents: &mut [u16], sizes: &mut [u16], n: usize, a: &[u16], b: &[u16])
    requires forest { Forest n parents.old sizes.old }
    requires b_len { (length b.now ≡ length a.now) × ((k : ℕ) → k < length a.now → (get_or a.now k 0 < n) × (get_or b.now k 0 < n)) }
    ensures parents_after { parents.new ≡ (joined_all (trees parents.old sizes.old) (links a.now b.now)).parents }
    ensures sizes_after { sizes.new ≡ (joined_all (trees parents.old sizes.old) (links a.now b.now)).sizes }
{
    for (&i, &j) in a.iter().zip(b) {
        join(parents, sizes, i as usize, j as usize);
    }
}

// Members in groups, at most 2,048: the numbers below `count`.
#[derive(Clone, Copy)]
pub struct Groups {
    pub parents: [u16; 2048],
    pub sizes: [u16; 2048],
    pub count: usize,
    ghost forest: { Forest count parents sizes },
}

impl Groups {
    // No members.
    pub fn new() -> Groups
        ensures parents { result.parents ≡ replicate 2048 0 }
        ensures sizes { result.sizes ≡ replicate 2048 0 }
    {
        Groups {
            parents: [0; 2048],
            sizes: [0; 2048],
            count: 0,
        }
    }

    // Makes each of n members a group of its own.
    pub fn start(&mut self, n: usize)
        requires { n ≤ 2048 }
        ensures parents_after { self.new.parents ≡ (started n self.old.parents self.old.sizes).parents }
        ensures sizes_after { self.new.sizes ≡ (started n self.old.parents self.old.sizes).sizes }
        ensures count_after { self.new.count ≡ n }
    {
        start(&mut self.parents, &mut self.sizes, n);
        self.count = n;
    }

    // The root of the tree of member i.
    pub fn root(&self, i: usize) -> usize
        requires { i < self.now.count }
        ensures value { result ≡ root_of self.now.parents i }
        ensures low { result < self.now.count }
    {
        find(&self.parents, i)
    }

    // Joins the groups of members i and j.
    pub fn join(&mut self, i: usize, j: usize)
        requires { (i < self.old.count) × (j < self.old.count) }
        ensures parents_after { self.new.parents ≡ (joined self.old.parents self.old.sizes i j).parents }
        ensures sizes_after { self.new.sizes ≡ (joined self.old.parents self.old.sizes i j).sizes }
        ensures count_after { self.new.count ≡ self.old.count }
    {
        join(&mut self.parents, &mut self.sizes, i, j);
    }

    // Joins the groups of a[k] and b[k], for each k in sequence.
    pub fn join_all(&mut self, a: &[u16], b: &[u16])
        requires { (length b.now ≡ length a.now) × ((k : ℕ) → k < length a.now → (get_or a.now k 0 < self.old.count) × (get_or b.now k 0 < self.old.count)) }
        ensures parents_after { self.new.parents ≡ (joined_all (trees self.old.parents self.old.sizes) (links a.now b.now)).parents }
        ensures sizes_after { self.new.sizes ≡ (joined_all (trees self.old.parents self.old.sizes) (links a.now b.now)).sizes }
        ensures count_after { self.new.count ≡ self.old.count }
    {
        join_all(&mut self.parents, &mut self.sizes, self.count, a, b);
    }
}
