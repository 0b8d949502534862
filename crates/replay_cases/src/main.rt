//! S11.13, run through Replay (S12): A alone with shares (1, 2) and three nodes without predecessors. Start's answer
//! is a line, and so is each call's record: outcome, number, task, mode, alive, age, ended set. Lengths 4, 3, 2: ended
//! with tick 9, no switch. Lengths 4, 3, 3: tick 9 switches, the job has ended with tick 10, and that tick returns.
#![tactic(auto)]

use basics::numbers::{byte_at, u32_at};
use guarantee::replay::replay;
use std::io;

/// S12.2: the bytes of a record of one task.
const RECORD: usize = 4 + 9;

/// S2: M 2; one task, at 6, with 24 bytes: high, 3 nodes, D 45, CN 9, CO 52, LN 4, LO 20, and three masks.
const SHEET: [u8; 30] = [
    2, 1, 6, 0, 24, 0, 1, 3, 45, 0, 9, 0, 52, 0, 4, 0, 20, 0, 0, 0, 0, 0, 0, 0, 0, 0, 0, 0, 0, 0,
];

/// S12.1: Release of task 0, then nine ticks of one report: node 0 ends with tick 4, node 1 with tick 7, node 2 with
/// tick 9.
const ENDED: [u8; 59] = [
    0, 0, 0, 0, 0, 1, 1, 0, 0, 0, 0, 1, 1, 0, 0, 0, 0, 1, 1, 0, 0, 0, 0, 1, 1, 1, 0, 0, 0, 1, 1, 0,
    0, 0, 0, 1, 1, 0, 0, 0, 0, 1, 1, 2, 0, 0, 0, 1, 1, 0, 0, 0, 0, 1, 1, 4, 0, 0, 0,
];

/// The same with a tenth tick, with which node 2 ends.
const SWITCHED: [u8; 65] = [
    0, 0, 0, 0, 0, 1, 1, 0, 0, 0, 0, 1, 1, 0, 0, 0, 0, 1, 1, 0, 0, 0, 0, 1, 1, 1, 0, 0, 0, 1, 1, 0,
    0, 0, 0, 1, 1, 0, 0, 0, 0, 1, 1, 2, 0, 0, 0, 1, 1, 0, 0, 0, 0, 1, 1, 0, 0, 0, 0, 1, 1, 4, 0, 0,
    0,
];

/// S12.2: Start's number and task, a byte each.
fn print_start(rt: &impl Print, text: &[u8]) -> io::Result<()> {
    let number = byte_at(text, 0);
    let task = byte_at(text, 1);
    println!(rt; "start {number} {task}")
}

/// S12.2: a record of one task, as a line.
fn print_record(rt: &impl Print, record: &[u8]) -> io::Result<()> {
    let outcome = byte_at(record, 0);
    let number = byte_at(record, 1);
    let task = byte_at(record, 2);
    let mode = byte_at(record, 3);
    let alive = byte_at(record, 4);
    let age = u32_at(record, 5);
    let ended = u32_at(record, 9);
    println!(rt; "{outcome} {number} {task} {mode} {alive} {age} {ended}")
}

/// Start's answer, and the records behind it.
fn print_records(rt: &impl Print, text: &[u8]) -> io::Result<()> {
    let (answer, records) = text.split_at(text.len().min(2));
    print_start(rt, answer)?;
    for record in records.chunks_exact(RECORD) {
        print_record(rt, record)?;
    }
    Ok(())
}

/// Runs the calls of a log and prints what Replay writes.
fn show(rt: &impl Print, calls: &[u8]) -> io::Result<()> {
    let mut out = [0; 256];
    match replay(&SHEET, calls, &mut out).and_then(|n| out.get(..n)) {
        Some(text) => print_records(rt, text),
        None => println!(rt; "short"),
    }
}

/// Both logs, one after the other.
fn main(rt: HostRuntime) -> io::Result<()> {
    show(&rt, &ENDED)?;
    show(&rt, &SWITCHED)
}
