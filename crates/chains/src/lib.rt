//! S14.7: the work and the span that times of nodes come to.
#![tactic(auto)]

ghost use Rattle.std.specs.Prelude.{◌≡◌, ◌++◌, ◌-◌, ◌^◌, ◌≤◌, ◌<◌, length, replicate, sum};
ghost use Rattle.nodes.specs.Sets.{members};
ghost use Rattle.chains.specs.Chains.{longest_among, chains_below, budget_of};
ghost use Rattle.chains.specs.means.Bounds.{time_at, Small};

pub mod promise;

use nodes::NodeSet;
use sheet::task::Budget;

/// The longest of the chains that end at one of these nodes.
fn longest_among(chains: &[u32; 32], nodes: NodeSet) -> u32
    ensures { result ≡ longest_among chains.now (members 32 nodes) }
{
    // `u32` has no `From` to `usize`.
    nodes
        .iter()
        .map(|v| chains.get(v as usize).copied().unwrap_or(0))
        .max()
        .unwrap_or(0)
}

/// S14.7: for each of the nodes below v the longest chain that ends at it. The chains below v - 1 come first,
/// then that of v - 1.
#[tactic(auto, using(crate::proofs::Stores::chains_first))]
fn chains_below(v: usize, times: &[u32], masks: &[u32; 32]) -> [u32; 32]
    requires v_bound { v ≤ length times.now }
    requires few { length times.now ≤ 32 }
    requires small { Small times.now }
    ensures { result ≡ chains_below masks.now (time_at times.now) v ++ replicate (32 - v) 0 }
{
    if v == 0 {
        return [0; 32];
    }
    let last = v - 1;
    let mut chains = chains_below(last, times, masks);
    chains[last] = times[last] + longest_among(&chains, NodeSet::from_bits(masks[last]));
    chains
}

/// The sum of some times.
fn total(times: &[u32]) -> u32
    requires { sum times.now < 2 ^ 32 }
    ensures { result ≡ sum times.now }
{
    times.iter().sum()
}

/// S14.7: the work and the span of nodes with these times.
/// Times and masks are no struct: an import takes the same masks with two rows of times.
pub fn budget_of(times: &[u32], masks: &[u32; 32]) -> Budget
    requires few { length times.now ≤ 32 }
    requires small { Small times.now }
    ensures { result ≡ budget_of masks.now (time_at times.now) (length times.now) }
{
    let chains = chains_below(times.len(), times, masks);
    // At most 32 nodes, and `usize` has no `From` to `u32`.
    let nodes = NodeSet::full(times.len() as u32);
    Budget {
        work: total(times),
        span: longest_among(&chains, nodes),
    }
}
