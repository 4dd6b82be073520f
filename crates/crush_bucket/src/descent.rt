//! The way down a tree: three levels, or the last two, by one vector of hashes, since the labels
//! below a node are known before its draw.

ghost use Rattle.std.specs.Prelude.{◌≡◌, ◌<◌, ◌≤◌, ◌+◌, ◌-◌, ◌*◌, ◌^◌, length, slice_index};
ghost use Rattle.crush_bucket.specs.Private.Descent.{child, lane_below, down_by, labels};

use crush_hash::{hash4, hash4_four, hash4_lanes};
use crush_map::ItemId;

/// Returns how many places a range of the height `height` has.
pub(crate) fn places(height: u32) -> usize
    requires { height < 32 }
    ensures { result ≡ 2 ^ height }
{
    1 << height
}

/// Returns the labels of a node and of the nodes one and two levels below it. A node's children are
/// at `2 * lane + 1` and `2 * lane + 2`.
#[inline]
fn labels(node: usize, quarter: usize) -> [u32; 8]
    requires above { 4 * quarter ≤ node }
    requires small { node + 4 * quarter < 2 ^ 32 }
    ensures { result ≡ labels node quarter }
{
    let (left, right) = (node - 2 * quarter, node + 2 * quarter);
    [
        node as u32,
        left as u32,
        right as u32,
        (left - quarter) as u32,
        (left + quarter) as u32,
        (right - quarter) as u32,
        (right + quarter) as u32,
        0,
    ]
}

/// Returns the child to which a node's hash leads.
#[inline]
pub(crate) fn child(nodes: &[u32], hash: u32, node: usize, half: usize) -> usize
    requires left { half ≤ node }
    requires right { node + half < 2 ^ 32 }
    requires inside { node < length nodes.now }
    ensures { result ≡ child nodes.now hash node half }
{
    let draw = u64::from(hash) * u64::from(nodes[node]) >> 32;
    let left = u64::from(nodes[node - half]);
    if draw < left {
        node - half
    } else {
        node + half
    }
}

/// Returns the child to which a node's hash leads, and its lane.
#[inline]
fn step(hashes: &[u32; 8], nodes: &[u32], node: usize, half: usize, lane: usize) -> (usize, usize)
    requires left { half ≤ node }
    requires right { node + half < 2 ^ 32 }
    requires inside { node < length nodes.now }
    requires lane { lane < 8 }
    ensures value { result ≡ (child nodes.now (slice_index hashes.now lane) node half, lane_below nodes.now (slice_index hashes.now lane) node half lane) }
    ensures low { node ≤ result.0 + half }
    ensures high { result.0 ≤ node + half }
    ensures lane { result.1 ≤ 2 * lane + 2 }
{
    let draw = u64::from(hashes[lane]) * u64::from(nodes[node]) >> 32;
    if draw < u64::from(nodes[node - half]) {
        (node - half, 2 * lane + 1)
    } else {
        (node + half, 2 * lane + 2)
    }
}

/// Finds the node to which the hashes lead three levels below a node.
#[inline]
pub(crate) fn down(id: ItemId, nodes: &[u32], x: u32, r: u32, node: usize, level: u32) -> usize
    requires some { 2 < level }
    requires low { level < 17 }
    requires above { 2 ^ level ≤ node }
    requires inside { node + 2 ^ level ≤ length nodes.now }
    requires small { length nodes.now < 2 ^ 31 }
    ensures { result ≡ down_by id nodes.now x r 3 level node }
{
    let quarter = places(level - 2);
    let hashes = hash4_lanes(x, &labels(node, quarter), r, id.word());
    let (second, lane) = step(&hashes, nodes, node, 2 * quarter, 0);
    let (third, lane) = step(&hashes, nodes, second, quarter, lane);
    step(&hashes, nodes, third, places(level - 3), lane).0
}

/// Finds the leaf to which the hashes lead two levels below a node. Three hashes are enough, for
/// which four lanes take half of what eight do.
#[inline]
pub(crate) fn two_down(id: ItemId, nodes: &[u32], x: u32, r: u32, node: usize) -> usize
    requires above { 4 ≤ node }
    requires inside { node + 4 ≤ length nodes.now }
    requires small { length nodes.now < 2 ^ 31 }
    ensures { result ≡ down_by id nodes.now x r 2 2 node }
{
    let labels = [node as u32, (node - 2) as u32, (node + 2) as u32, 0];
    let four = hash4_four(x, &labels, r, id.word());
    let hashes = [four[0], four[1], four[2], 0, 0, 0, 0, 0];
    let (below, lane) = step(&hashes, nodes, node, 2, 0);
    step(&hashes, nodes, below, 1, lane).0
}

/// Finds the child to which the hash of a node above the leaves leads.
pub(crate) fn last_down(id: ItemId, nodes: &[u32], x: u32, r: u32, node: usize) -> usize
    requires above { 2 ≤ node }
    requires inside { node + 2 ≤ length nodes.now }
    requires small { length nodes.now < 2 ^ 31 }
    ensures { result ≡ down_by id nodes.now x r 1 1 node }
{
    let hash = hash4(x, node as u32, r, id.word());
    step(&[hash; 8], nodes, node, 1, 0).0
}
