// The edge rule: two edge places have the same number exactly when they join the same two vertices.
ghost use Rattle.std.specs.Prelude.{◌≡◌, ℕ, ◌<◌, ◌≤◌, true, length};
ghost use Rattle.grid.specs.Cells.{before, own};
ghost use Rattle.grid.specs.CellsFacts.{Shaped};
ghost use Rattle.grid.specs.Mesh.{most_vertices, most_edges};
ghost use Rattle.numbers.specs.Ranges.{all_below};
ghost use Rattle.grid.specs.EdgeRule.{edge_keys, keys_agree, has_key, may_have, Numbered};

use crate::shape::{KEY_STEP, MOST_CORNERS, end_of, write_cell_keys};
use crate::{MOST_CELLS, MOST_EDGES};
use numbers::wide;

// Above every key. An Option<u32> takes eight bytes for four: then `has_key` would compare half as many at a time, and the list of keys would take 64 KiB of
// planning's stack for 32. An Option<NonZeroU32> takes four, but a key is 0 where both vertices are, so that each key would first have to be shown to be of two
// different vertices, which `pair_key` does not ask.
const NO_KEY: u32 = KEY_STEP * KEY_STEP;

// Writes the key of each edge place, in the order of the edge list.
fn write_keys(kinds: &[u8], vertices: &[u32], keys: &mut [u32])
    requires shaped { Shaped kinds.now vertices.now × (all_below vertices.now most_vertices ≡ true) }
    requires keys_len { length keys.old ≡ length vertices.now }
    ensures { keys.new ≡ edge_keys kinds.now vertices.now (length kinds.now) }
{
    let mut at = 0;
    for &kind in kinds {
        let end = end_of(kind, at);
        write_cell_keys(&vertices[at..end], keys, at);
        at = end;
    }
}

// Whether an edge below the count has the key. With no way out before the end, it is compiled to several comparisons at a time: by `contains`, 9,244 instructions
// for 8,202 at 8,192 edges, and it is called for each edge.
fn has_key(keys: &[u32; MOST_EDGES], count: usize, key: u32) -> bool
    requires { count ≤ most_edges }
    ensures { result ≡ has_key keys.now count key }
{
    let mut found = false;
    for &known in &keys[..count] {
        found |= known == key;
    }
    found
}

// Whether an edge may have the key: it has it already, or it has none and no other edge has this one.
fn may_have(keys: &[u32; MOST_EDGES], count: usize, edge: usize, key: u32) -> bool
    requires { (count ≤ most_edges) × (edge < count) }
    ensures { result ≡ may_have keys.now count edge key }
{
    let known = keys[edge];
    if known == key {
        true
    } else {
        (known == NO_KEY) & !has_key(keys, count, key)
    }
}

// Whether each edge, of so many, has one key at all its places, and no two edges have the same, where the keys of the edge places are given. An edge
// number that none of the places passed has is marked with NO_KEY; those past the largest number so far are not looked at. The list has a fixed size, since
// nothing is allocated.
fn keys_agree(places: &[u32], edges: &[u32], count: usize) -> bool
    requires { Numbered places.now edges.now count }
    ensures { result ≡ keys_agree places.now edges.now }
{
    let mut keys = [NO_KEY; MOST_EDGES];
    let mut top = 0;
    for (&number, &key) in edges.iter().zip(places) {
        let edge = wide(number);
        top = top.max(edge + 1);
        if !may_have(&keys, top, edge, key) {
            return false;
        }
        keys[edge] = key;
    }
    true
}

// The edge rule, of so many edges, by way of a list of the keys of the edge places, of a fixed size, since nothing is allocated.
pub(crate) fn keeps_edge_rule(kinds: &[u8], vertices: &[u32], edges: &[u32], count: usize) -> bool
    requires shaped { Shaped kinds.now vertices.now × (all_below vertices.now most_vertices ≡ true) }
    requires numbered { Numbered (edge_keys kinds.now vertices.now (length kinds.now)) edges.now count }
    ensures { result ≡ keys_agree (edge_keys kinds.now vertices.now (length kinds.now)) edges.now }
{
    let n = vertices.len();
    let mut places = [0; MOST_CORNERS * MOST_CELLS];
    let places = &mut places[..n];
    write_keys(kinds, vertices, places);
    keys_agree(places, edges, count)
}
