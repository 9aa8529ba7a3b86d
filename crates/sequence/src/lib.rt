// Members with equal keys as groups, each in sequence, ordered by their first members, in linear
// time: a pass from the last member to the first threads the members of each key, then each thread
// is followed from its head.
#![tactic(auto)]

ghost use Rattle.std.specs.Prelude.{◌≡◌, map, ◌+◌, ◌≤◌, length, get_or};
ghost use Rattle.std.proofs.lemmas.List.Edits.{sets};
ghost use Rattle.lists.specs.Lists.{flat};
ghost use Rattle.sequence.specs.Keys.{Bare, Heads, Keyed, Nexts, Writable, key_groups, members_of, named};

// Threads the members: `head` gets the first member of each key, `next` the one after each member;
// the number of members stands for none.
fn thread(keys: &[u16], next: &mut [u16], head: &mut [u16])
    requires { Bare keys.now next.old head.old }
    ensures heads { Heads keys.now head.new }
    ensures nexts { Nexts keys.now next.new }
{
    for j in (0..keys.len()).rev() {
        let k = usize::from(keys[j]);
        next[j] = head[k];
        head[k] = j as u16;
    }
}

// Writes the group whose first member is i from `at` on; the place after it.
fn put_group(
    keys: &[u16],
    names: &[u16],
    next: &[u16],
    i: usize,
    out: &mut [u16],
    at: usize,
) -> usize
    requires { Writable keys.now names.now next.now i out.old at }
    ensures out_after { out.new ≡ sets out.old at (named names.now (members_of keys.now (get_or keys.now i 0))) }
    ensures value { result ≡ at + length (members_of keys.now (get_or keys.now i 0)) }
{
    let mut to = at;
    let mut j = i;
    // No `for`: it follows the thread from member to member, to its end.
    while j < keys.len() {
        out[to] = names[j];
        to += 1;
        j = usize::from(next[j]);
    }
    to
}

// Writes the groups of the threaded members; how many.
fn put_groups(
    keys: &[u16],
    names: &[u16],
    next: &[u16],
    head: &[u16],
    out: &mut [u16],
    lens: &mut [u16],
) -> usize
    requires { Keyed keys.now names.now out.old lens.old × ((length head.now ≡ 1536) × ((length keys.now ≤ length next.now) × (Heads keys.now head.now × Nexts keys.now next.now))) }
    ensures out_after { out.new ≡ sets out.old 0 (flat (key_groups names.now keys.now)) }
    ensures lens_after { lens.new ≡ sets lens.old 0 (map length (key_groups names.now keys.now)) }
    ensures value { result ≡ length (key_groups names.now keys.now) }
{
    let mut at: usize = 0;
    let mut count: usize = 0;
    for (i, &key) in keys.iter().enumerate() {
        if usize::from(head[usize::from(key)]) == i {
            let end = put_group(keys, names, next, i, out, at);
            lens[count] = (end - at) as u16;
            at = end;
            count += 1;
        }
    }
    count
}

// The groups of members with equal keys: the members' names one after the other are written to
// `out`, the numbers of members to `lens`; how many groups.
pub fn groups_by(keys: &[u16], names: &[u16], out: &mut [u16], lens: &mut [u16]) -> usize
    requires { Keyed keys.now names.now out.old lens.old }
    ensures out_after { out.new ≡ sets out.old 0 (flat (key_groups names.now keys.now)) }
    ensures lens_after { lens.new ≡ sets lens.old 0 (map length (key_groups names.now keys.now)) }
    ensures value { result ≡ length (key_groups names.now keys.now) }
    ensures keys_len { (length (flat (key_groups names.now keys.now)) ≡ length keys.now) × (result ≤ length keys.now) }
{
    let mut next = [0u16; 512];
    let mut head = [keys.len() as u16; 1536];
    thread(keys, &mut next, &mut head);
    put_groups(keys, names, &next, &head, out, lens)
}
