//! The report of `edges`: a line for each launch edge and each capture edge of a file's clocks.

ghost use Rattle.std.specs.Prelude.{◌≡◌, ◌++◌, ◌∷◌, [], ℕ, List, length, IfOk, OnOk};
ghost use Rattle.sdc_model.specs.EdgesText.{Appends, AreReports, IsReport, AreLines, AreLinesFrom, edge_text, relation_text, edge_word, clock_edges, edges_of, nanoseconds_text, IsTimed, AreTimed, HaveTimes, ModesHaveTimes};
ghost use Rattle.timing_model.specs.Relation.{IsRelation};
ghost use Rattle.sdc_cli.specs.LineParts.{front_text, line_rest};

use crate::waveforms::NANOSECOND;
use clock_tree::relation;
use pin_types::Edge;
use sdc_base::{Duplicate, List, NoMemory, Text, TimeBuffer};
use std::alloc::Global;
use timing_types::{Clock, Form, Mode, Relation, TimedEdge};

/// The reports of files, of which these are the modes, one after the other.
pub fn report_text(alloc: Global, files: &[Text], modes: &[Mode]) -> Result<Vec<u8>, NoMemory>
    requires same_length { length files.now ≡ length modes.now }
    requires timed { ModesHaveTimes modes.now }
    ensures { IfOk result (λ text. AreReports files.now modes.now text.items) }
{
    let mut text = Vec::new(alloc);
    for (at, file) in files.iter().enumerate() {
        let mode = &modes[at];
        append_report(alloc, &mut text, file.as_str(), mode.clocks.as_slice())?;
    }
    Ok(text)
}

/// Appends the report of one file.
fn append_report(
    alloc: Global,
    text: &mut Vec<u8>,
    file: &str,
    clocks: &[Clock],
) -> Result<(), NoMemory>
    requires { HaveTimes clocks.now }
    ensures { OnOk result (Appends (IsReport file.now clocks.now) text.old.items text.new.items) }
{
    let edges = timed_edges(alloc, clocks)?;
    append_all_lines(alloc, text, file, edges.as_slice())
}

/// Appends the lines of all launch edges and all capture edges among these.
fn append_all_lines(
    alloc: Global,
    text: &mut Vec<u8>,
    file: &str,
    edges: &[TimedEdge],
) -> Result<(), NoMemory>
    requires { AreTimed edges.now }
    ensures { OnOk result
        (Appends (AreLines file.now edges.now edges.now) text.old.items text.new.items) }
{
    for launch in edges {
        append_lines_from(alloc, text, file, launch, edges)?;
    }
    Ok(())
}

/// Appends the lines of one launch edge.
fn append_lines_from(
    alloc: Global,
    text: &mut Vec<u8>,
    file: &str,
    launch: &TimedEdge,
    captures: &[TimedEdge],
) -> Result<(), NoMemory>
    requires launch { IsTimed launch.now }
    requires captures { AreTimed captures.now }
    ensures { OnOk result
        (Appends (AreLinesFrom file.now launch.now captures.now) text.old.items text.new.items) }
{
    let front = line_front(alloc, file, launch)?;
    for capture in captures {
        append_line(
            text,
            front.as_slice(),
            capture,
            relation_of(launch, capture),
        )?;
    }
    Ok(())
}

/// What all lines of a launch edge begin with.
fn line_front(alloc: Global, file: &str, launch: &TimedEdge) -> Result<Vec<u8>, NoMemory>
    ensures { IfOk result (λ front. front.items ≡ front_text file.now launch.now) }
{
    let mut front = Vec::new(alloc);
    front.extend_from_slice(file.as_bytes())?;
    front.extend_from_slice(b": ")?;
    append_edge(&mut front, launch)?;
    front.extend_from_slice(b" -> ")?;
    Ok(front)
}

/// The relation of two edges.
fn relation_of(launch: &TimedEdge, capture: &TimedEdge) -> Relation
    requires launch { IsTimed launch.now }
    requires capture { IsTimed capture.now }
    ensures { IsRelation launch.now.time launch.now.period capture.now.time capture.now.period result }
{
    relation(launch.time, launch.period, capture.time, capture.period)
}

/// Appends the line with this front, of a capture edge and the relation to it.
fn append_line(
    text: &mut Vec<u8>,
    front: &[u8],
    capture: &TimedEdge,
    relation: Relation,
) -> Result<(), NoMemory>
    ensures { OnOk result (text.new.items
        ≡ text.old.items ++ (front.now ++ line_rest capture.now relation)) }
{
    text.extend_from_slice(front)?;
    append_edge(text, capture)?;
    append_relation(text, relation)?;
    text.extend_from_slice(b"\n")?;
    Ok(())
}

/// Appends a relation in nanoseconds.
fn append_relation(text: &mut Vec<u8>, relation: Relation) -> Result<(), NoMemory>
    ensures { OnOk result (text.new.items ≡ text.old.items ++ relation_text relation) }
{
    text.extend_from_slice(b" setup ")?;
    append_time(text, relation.setup)?;
    text.extend_from_slice(b" hold ")?;
    append_time(text, relation.hold)?;
    Ok(())
}

/// Appends an edge as reports name it.
fn append_edge(text: &mut Vec<u8>, edge: &TimedEdge) -> Result<(), NoMemory>
    ensures { OnOk result (text.new.items ≡ text.old.items ++ edge_text edge.now) }
{
    text.extend_from_slice(edge.clock.as_bytes())?;
    text.extend_from_slice(match edge.edge {
        Edge::Rise => b" rise",
        Edge::Fall => b" fall",
    })?;
    Ok(())
}

/// Appends a time in nanoseconds.
fn append_time(text: &mut Vec<u8>, time: i64) -> Result<(), NoMemory>
    ensures { OnOk result (text.new.items ≡ text.old.items ++ nanoseconds_text time) }
{
    let mut buffer = TimeBuffer::new();
    text.extend_from_slice(buffer.format(time, NANOSECOND))?;
    Ok(())
}

/// The edges of clocks, in order.
fn timed_edges(alloc: Global, clocks: &[Clock]) -> Result<List<TimedEdge>, NoMemory>
    ensures { IfOk result (λ edges. edges ≡ clock_edges clocks.now) }
{
    let mut edges = List::new(alloc);
    for clock in clocks {
        push_edges(alloc, &mut edges, clock)?;
    }
    Ok(edges)
}

/// Adds the two edges of a clock that has a waveform of its own.
fn push_edges(alloc: Global, edges: &mut List<TimedEdge>, clock: &Clock) -> Result<(), NoMemory>
    ensures { OnOk result (edges.new ≡ edges.old ++ edges_of clock.now.name clock.now.form) }
{
    match clock.form {
        Form::Primary { wave } => {
            push_edge(alloc, edges, clock, Edge::Rise, wave.rise, wave.period)?;
            push_edge(alloc, edges, clock, Edge::Fall, wave.fall, wave.period)
        }
        Form::Generated { .. } => Ok(()),
    }
}

/// Adds an edge of a clock.
fn push_edge(
    alloc: Global,
    edges: &mut List<TimedEdge>,
    clock: &Clock,
    edge: Edge,
    time: i64,
    period: i64,
) -> Result<(), NoMemory>
    ensures { OnOk result (edges.new ≡ edges.old
        ++ record { clock = clock.now.name; edge = edge; time = time; period = period } ∷ []) }
{
    let clock = clock.name.copy(alloc)?;
    edges.push(TimedEdge {
        clock,
        edge,
        time,
        period,
    })
}
