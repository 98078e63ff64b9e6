// Replays the original's answers: reads its file from standard input, works each answer out again and counts what differs.
#![tactic(auto)]

mod curves;
mod cuts;
mod defaults;
mod groups;
mod growths;
mod kept;
mod marks;
mod points;
mod queries;
mod records;
mod roots;
mod sections;
mod seen;
mod strips;
mod tables;
mod words;

ghost use Rattle.std.specs.Prelude.{◌≡◌, ◌≤◌, IfOk, length};

use crate::groups::State;
use crate::seen::{Curves, KINDS, Seen};
use std::io;
use std::io::Read;

// Room for the whole file of answers. By itself: antt runs out of stack where `main` has the array.
fn room() -> [u8; 1048576]
    ensures { 1048576 ≡ length result }
{
    [0; 1048576]
}

// Reads until the buffer is full or the input ends, and tells how many bytes it put at the buffer's start.
fn read_full<R: Read>(reader: &mut R, buffer: &mut [u8]) -> io::Result<usize>
    ensures { IfOk result (λ n. n ≤ length buffer.new) }
{
    let mut done = 0;
    while done < buffer.len() {
        let n = reader.read(&mut buffer[done..])?;
        if n == 0 {
            break;
        }
        done += n;
    }
    Ok(done)
}

// The kinds, in the order in which they are counted.
const NAMES: [&str; KINDS] = [
    "EverywhereConstant",
    "ConstantGrad",
    "ConvexMonotone2",
    "ConvexMonotone3",
    "ConvexMonotone4",
    "ConvexMonotone4Min",
    "ConvexMonotone4Min split",
    "Quadratic",
    "QuadraticMin",
    "QuadraticMin split",
    "Combination",
];

// What was seen of curves that were asked for by this name, made by that one, and of each of which so much was told.
fn print_curves(
    out: &impl Print,
    asked: &str,
    made: &str,
    each: &str,
    n: &Curves,
) -> io::Result<()> {
    println!(out; "{asked} {}", n.asked.0)?;
    println!(out; "{asked} refused {}", n.refused.0)?;
    println!(out; "{made} {}", n.made.0)?;
    println!(out; "{each} records {}", n.records.0)?;
    println!(out; "{each} knots {}", n.knots.0)?;
    println!(out; "{each} column entries {}", n.totals.0)?;
    println!(out; "{each} queries {}", n.queries.0)?;
    println!(out; "{each} strips {}", n.strips.0)?;
    println!(out; "{each} strips between knots {}", n.between.0)?;
    println!(out; "{each} strips in runs {}", n.run.0)
}

fn print(out: &impl Print, seen: &Seen) -> io::Result<()> {
    println!(out; "defaults {}", seen.defaults.0)?;
    println!(out; "roots {}", seen.roots.0)?;
    for (name, n) in NAMES.iter().zip(&seen.sections) {
        println!(out; "sections {name} {}", n.0)?;
    }
    println!(out; "records {}", seen.records.0)?;
    println!(out; "queries {}", seen.queries.0)?;
    print_curves(out, "builds", "curves", "curve", &seen.built)?;
    print_curves(out, "growths", "grown curves", "grown", &seen.grown)?;
    println!(out; "tables in sheets {}", seen.sheets.made.0)?;
    println!(out; "tables in sheets refused {}", seen.sheets.refused.0)?;
    println!(out; "numbers that are not finite {}", seen.not_finite.0)?;
    println!(out; "runs refused for such a number {}", seen.runs_refused.0)?;
    println!(out; "lines of no known kind {}", seen.strange.0)?;
    println!(out; "mismatches {}", seen.mismatches.0)
}

fn replay(text: &[u8]) -> Seen {
    let mut state = State::new();
    for line in text.split_inclusive(|b| *b == b'\n') {
        state.line(line);
    }
    state.seen
}

fn main(rt: HostRuntime) -> io::Result<()> {
    let mut text = room();
    let n = read_full(&mut rt.reader(), &mut text)?;
    print(&rt, &replay(&text[..n]))
}
