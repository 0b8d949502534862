//! S14.6 and S14.7: the task that a graph becomes.
ghost use Rattle.std.specs.Prelude.{◌≡◌, ◌≤◌};
ghost use Rattle.chains.specs.means.Bounds.{time_limit, Small};
ghost use Rattle.importer.specs.Task.{scaled};
ghost use Rattle.importer.specs.means.Nodes.{scaled_times, nodes_task};

use crate::terms::Terms;
use chains::budget_of;
use graph_text::graph::NodeGraph;
use sheet::task::{Figures, Task};

/// S14.6: a time by a percentage, rounded up.
#[tactic(auto, unfolding(crate::specs::Task::scaled))]
fn scaled(time: u16, percentage: u32) -> u32
    requires { percentage ≤ 400 }
    ensures value { result ≡ scaled percentage time }
    ensures bound { result ≤ time_limit }
{
    (u32::from(time) * percentage).div_ceil(100)
}

/// S14.6: the times of k nodes by a percentage.
fn scaled_times(k: usize, percentage: u32, times: &[u16; 32]) -> [u32; 32]
    requires { (k ≤ 32) × (percentage ≤ 400) }
    ensures value { result ≡ scaled_times k percentage times.now }
    ensures small { Small result }
{
    // By index: `map` would scale all 32, and after an adapter of `iter_mut` nothing is known of the values.
    let mut result = [0; 32];
    for v in 0..k {
        result[v] = scaled(times[v], percentage);
    }
    result
}

/// S14.7: the task of a graph of at most 32 nodes. Its nominal times are the times at 100 percent.
pub fn task_of(graph: &NodeGraph, t: Terms) -> Task
    requires few { graph.now.count ≤ 32 }
    requires level { t.level ≤ 1 }
    requires percentage { t.percentage ≤ 400 }
    ensures { result ≡ nodes_task graph.now t }
{
    let k = usize::from(graph.count);
    let nominal = scaled_times(k, 100, &graph.times);
    let overload = scaled_times(k, t.percentage, &graph.times);
    // A level is 0 or 1, and 32 nodes are few; `try_from` would make an error that can't come.
    let (level, nodes) = (t.level as u8, graph.count as u8);
    Task {
        figures: Figures {
            deadline: t.deadline,
            nominal: budget_of(&nominal[..k], &graph.masks),
            overload: budget_of(&overload[..k], &graph.masks),
        },
        predecessors: graph.masks,
        level,
        nodes,
    }
}
