// Runs cases on packed tables, one to a line, and prints what the tool answers. What it must print comes from an implementation that
// shares nothing with the tool but its rules. It answers the call `rows` too, so that one program serves for the comparison with that
// implementation.
#![tactic(auto)]

mod packed;
#[cfg(test)]
mod tests;

use crate::packed::{decided, no_case, on_the_rig, opened, packing, repacked};
use cases::{bytes, ended, number, packet};
use decision::{Kind, Marks, Verdicts};
use report::{Unanswered, rows_report};
use std::alloc::Global;
use std::io::{BufRead, BufReader};

// A wanting word counts as an empty one, and further words go unread.
fn of_kind<K: Kind>(heap: Global, call: &str, words: &[&str]) -> Result<String, Unanswered> {
    let bytes = bytes(heap, words.first().copied().unwrap_or(""))?;
    let second = words.get(1).copied().unwrap_or("");
    match call {
        "rows" => ended(heap, rows_report::<K>(heap, &bytes)),
        "pack" => ended(heap, packing::<K>(heap, &bytes, number(second) as usize)),
        "open" => opened::<K>(heap, &bytes),
        "opened" => decided::<K>(heap, &bytes, packet(words.get(1..).unwrap_or(&[]))),
        "repack" => ended(heap, repacked::<K>(heap, &bytes)),
        _ => no_case::<K>(heap, &bytes),
    }
}

// A call and a kind are named by their words in patterns, since a type for them would be made from the word and matched once.
fn answer(heap: Global, case: &str) -> Result<String, Unanswered> {
    let words: Vec<&str> = case.split(' ').collect(heap)?;
    match words.as_slice() {
        ["rig"] => Ok(on_the_rig(heap, &[], packet(&[]))?),
        ["rig", packed, fields @ ..] => {
            Ok(on_the_rig(heap, &bytes(heap, packed)?, packet(fields))?)
        }
        [call, "1", words @ ..] => of_kind::<Verdicts>(heap, call, words),
        [call, "2", words @ ..] => of_kind::<Marks>(heap, call, words),
        _ => Ok(String::from_str(heap, "no such kind\n")?),
    }
}

// A loop of its own in each program of cases: one for both would take what answers a case, and promise nothing of what is printed.
fn main(rt: HostRuntime) -> anyhow::Result<()> {
    for case in BufReader::new(rt.alloc(), rt.stdin())?.lines(rt.alloc()) {
        rt.print(answer(rt.alloc(), case?.as_str())?)?;
    }
    Ok(())
}
