//! S14.9: import.
ghost use Rattle.std.specs.Prelude.{◌≡◌, ◌+◌, ◌*◌, length};
ghost use Rattle.sheet.specs.Refusal.{number_of, task_of, Says};
ghost use Rattle.importer.specs.Import.{import_answer, imported};
ghost use Rattle.importer.specs.means.Nodes.{nodes_answer};

use crate::record::write_record;
use crate::task::task_of;
use crate::terms::Terms;
use graph_text::graph::{NodeGraph, read_graph};
use sheet::refusal::Refusal;

/// S2.6: the bytes of the record of so many nodes.
pub fn record_length(nodes: u16) -> usize
    ensures { result ≡ 12 + 4 * nodes }
{
    12 + 4 * usize::from(nodes)
}

/// S9.17, S9.18: what is refused of a graph that was read, terms and the length of the buffer.
#[tactic(auto, unfolding(crate::specs::means::Nodes::nodes_answer, crate::specs::Import::room_for))]
fn graph_answer(graph: &NodeGraph, t: Terms, room: usize) -> Result<(), Refusal>
    ensures { result ≡ nodes_answer graph.now t room }
{
    if !(t.is_lawful() && record_length(graph.count) <= room) {
        return Err(Refusal::BadText);
    }
    if !((1..=32).contains(&graph.count) && graph.rising) {
        return Err(Refusal::BadGraph);
    }
    Ok(())
}

/// Import: the graph of a text becomes the record of a task, at the front of the buffer; a refusal writes nothing.
pub fn import(text: &[u8], t: Terms, record: &mut [u8]) -> Result<(), Refusal>
    ensures answered { result ≡ import_answer text.now t (length «record».old) }
    ensures says { Says result
        (number_of (import_answer text.now t (length «record».old)))
        (task_of (import_answer text.now t (length «record».old))) }
    ensures written { «record».new ≡ imported text.now t «record».old }
{
    let Ok(graph) = read_graph(text) else {
        return Err(Refusal::BadText);
    };
    graph_answer(&graph, t, record.len())?;
    let task = task_of(&graph, t);
    if !task.figures.are_in_range(task.level) {
        return Err(Refusal::FigureOutside);
    }
    write_record(record, &task);
    Ok(())
}
