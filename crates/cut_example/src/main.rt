//! How the libraries of cutting trees and plans are called: a tree is read and laid, a bar and a sheet are planned. After
//! that each line of the input asks one call, by its name, numbers and, after a colon, a text: `stdin` has the lines,
//! `stdout` each with what came of it.
#![tactic(auto)]

mod cuts;
mod measures;
mod plans;
mod trees;
mod wants;

use crate::cuts::Unit;
use anyhow::{Error, Result};
use cut_measure::Kind;
use cut_tree::Plan;
use std::alloc::Global;
use std::io::{self, BufRead, BufReader, BufWriter, Write};

// The numbers of some words, and zeros after them.
fn numbers_of(words: &str) -> Result<[u32; 8]> {
    let mut numbers = [0; 8];
    for (number, word) in numbers.iter_mut().zip(words.split_whitespace()) {
        *number = word.parse()?;
    }
    Ok(numbers)
}

// What comes of a line about wants, or else of one about numbers alone.
fn wanted_reported(alloc: Global, name: &str, numbers: [u32; 8], text: &str) -> Result<String> {
    let [w, h, kerf, a, b, ..] = numbers;
    let unit = Unit { w, h, kerf };
    let wants = wants::wants_of(alloc, text)?;
    match name {
        "worth" => wants::worth_reported(alloc, unit, &wants),
        "tree" => wants::tree_reported(alloc, unit, &wants),
        "reached" => wants::reached_reported(alloc, unit, a, &wants),
        "sheet" => wants::sheet_reported(alloc, unit, a, &wants),
        "sheet-cuts" => wants::cuts_reported(alloc, unit, a, &wants),
        "bar-bound" => wants::bound_reported(alloc, Kind::Bar, unit, a, &wants),
        "sheet-bound" => wants::bound_reported(alloc, Kind::Sheet, unit, a, &wants),
        "alike" => wants::alike_reported(alloc, unit),
        "table" => wants::table_reported(alloc),
        "bar-size" => measures::size_reported(alloc, Kind::Bar, w, h),
        "sheet-size" => measures::size_reported(alloc, Kind::Sheet, w, h),
        "bar-limits" => measures::limits_reported(alloc, Kind::Bar, w, h, kerf),
        "sheet-limits" => measures::limits_reported(alloc, Kind::Sheet, w, h, kerf),
        "kept" => measures::kept_reported(alloc, w, h, kerf, a),
        "endless" => cuts::endless_reported(alloc, w),
        "two-pieces" => cuts::two_pieces_reported(alloc, unit, a, b),
        "many-pieces" => cuts::many_pieces_reported(alloc, unit, a),
        "faults" => wants::faults_reported(alloc),
        _ => Err(Error::msg("no line begins so")),
    }
}

// What comes of a line about a plan, where work may have halted at a cut, after the one before it or after some that are
// listed.
fn planned_reported(
    alloc: Global,
    name: &str,
    plan: &Plan,
    (cut, lost): (u32, bool),
    words: &str,
) -> Result<String> {
    match name {
        "steps" => cuts::steps_reported(alloc, plan),
        "leaves" => cuts::leaves_reported(alloc, plan),
        "first" => cuts::first_reported(alloc, plan, cut, lost),
        "listed" => cuts::listed_reported(alloc, plan, words),
        _ => cuts::laid_reported(alloc, plan),
    }
}

// What comes of a line about a plan that a text spells on a unit, or else of one about wants.
fn spelled_reported(alloc: Global, name: &str, numbers: [u32; 8], text: &str) -> Result<String> {
    let [w, h, kerf, a, b, c, ..] = numbers;
    let unit = Unit { w, h, kerf };
    match name {
        "plan" => cuts::plan_reported(alloc, unit, text),
        "same" => {
            let other = Unit {
                w: a,
                h: b,
                kerf: c,
            };
            cuts::same_reported(alloc, unit, other, text)
        }
        "steps" | "leaves" | "first" | "listed" | "laid" => {
            let (text, words) = text.split_once(": ").unwrap_or((text, ""));
            let plan = cuts::plan_of(alloc, unit, text)?;
            planned_reported(alloc, name, &plan, (a, b == 1), words)
        }
        _ => wanted_reported(alloc, name, numbers, text),
    }
}

// What comes of a line.
fn reported(alloc: Global, line: &str) -> Result<String> {
    let (name, words) = line.split_once(' ').unwrap_or((line, ""));
    match name {
        "code" => measures::code_reported(alloc, words),
        "codes" => measures::codes_reported(alloc, words),
        "part" => measures::part_reported(alloc, words),
        "parts" => measures::parts_reported(alloc, words),
        "number" => measures::number_reported(alloc, words),
        "length" => measures::length_reported(alloc, words),
        _ => {
            let (words, text) = words.split_once(": ").unwrap_or((words, ""));
            spelled_reported(alloc, name, numbers_of(words)?, text)
        }
    }
}

fn main(rt: HostRuntime) -> Result<()> {
    let alloc = rt.alloc();
    trees::print_rows(&rt)?;
    plans::print_bar(&rt)?;
    plans::print_sheet(&rt)?;
    let mut output = BufWriter::new(alloc, io::writer(&rt))?;
    for line in BufReader::new(alloc, rt.reader())?.lines(alloc) {
        let line = line?;
        let reported = reported(alloc, line.as_str())?;
        writeln!(output, "> {}", line.as_str())?;
        output.write_all(reported.as_bytes())?;
        if !reported.as_str().ends_with('\n') {
            output.write_all(b"\n")?;
        }
    }
    output.flush()?;
    Ok(())
}
