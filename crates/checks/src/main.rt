// Runs cases, one to a line, and prints what the tool answers. What it must print comes from an implementation that shares
// nothing with the tool but its rules.
#![tactic(auto)]

use book::Book;
use cases::{bytes, ended, number, packet};
use decision::{Kind, Marks, Verdicts};
use findings::{Finding, Hiding, findings};
use packet::Packet;
use report::{TOO_LARGE, Unanswered, rows_report};
use std::alloc::{AllocError, Global};
use std::io::{BufRead, BufReader};
use text::{ReadFault, read};
use winner::{WinnerFault, WinningLine, winner};

// What reading a text answers, and how many rules the book then holds.
fn reading<K: Kind>(heap: Global, text: &[u8]) -> Result<String, AllocError> {
    let mut book = Book::<K>::open(heap)?;
    let answer = read(&mut book, text);
    let held = book.rules().len();
    match answer {
        Ok(()) => format!(in heap; "taken {held}\n"),
        Err(fault) => {
            let report = fault.report();
            format!(in heap; "{report} after {held}\n")
        }
    }
}

// The findings of a text's rules, given room for so many.
fn found<K: Kind>(heap: Global, text: &[u8], room: usize) -> Result<String, Unanswered> {
    let mut book = Book::<K>::open(heap)?;
    read(&mut book, text)?;
    let blank = Finding {
        first: 0,
        second: 0,
        hiding: Hiding::Redundant,
    };
    let mut entries = vec![in heap; blank; room.min(2_016)]?;
    let Ok(count) = findings(&book, &mut entries) else {
        return Err(Unanswered::Refused(TOO_LARGE));
    };
    let mut lines = format!(in heap; "findings {count}\n")?;
    for entry in entries.iter().take(count) {
        let Finding {
            first,
            second,
            hiding,
        } = *entry;
        let number = hiding.number();
        // By `push_str`, for the error of `write!` would not say that memory ran out.
        lines.push_str(format!(in heap; "{first} {second} {number}\n")?.as_str())?;
    }
    Ok(lines)
}

// The number of the first line of a text with these bytes.
fn line_number(text: &[u8], line: &[u8]) -> usize {
    text.split(|byte| *byte == b'\n')
        .position(|piece| piece == line)
        .map_or(0, |before| before.saturating_add(1))
}

fn told_line(heap: Global, which: u8, text: &[u8], line: &[u8]) -> Result<String, AllocError> {
    let number = line_number(text, line);
    let digits = hex::encode(heap, line)?;
    format!(in heap; "text {which} line {number} {digits}\n")
}

fn told_fault(heap: Global, which: u8, fault: ReadFault) -> Result<String, AllocError> {
    let report = fault.report();
    format!(in heap; "text {which} {report}\n")
}

// The winning line of two texts, or none, or what is wrong with a text.
fn won<K: Kind>(
    heap: Global,
    first: &[u8],
    second: &[u8],
    packet: Packet,
) -> Result<String, AllocError> {
    match winner::<K>(first, second, packet) {
        Ok(Some(WinningLine::First(line))) => told_line(heap, 1, first, line),
        Ok(Some(WinningLine::Second(line))) => told_line(heap, 2, second, line),
        Ok(None) => String::from_str(heap, "none\n"),
        Err(WinnerFault::First(fault)) => told_fault(heap, 1, fault),
        Err(WinnerFault::Second(fault)) => told_fault(heap, 2, fault),
    }
}

// A wanting word counts as an empty one, and further words go unread.
fn of_kind<K: Kind>(heap: Global, call: &str, words: &[&str]) -> Result<String, Unanswered> {
    let text = bytes(heap, words.first().copied().unwrap_or(""))?;
    let second = words.get(1).copied().unwrap_or("");
    match call {
        "read" => Ok(reading::<K>(heap, &text)?),
        "rows" => ended(heap, rows_report::<K>(heap, &text)),
        "findings" => ended(heap, found::<K>(heap, &text, number(second) as usize)),
        "winner" => {
            let second = bytes(heap, second)?;
            let packet = packet(words.get(2..).unwrap_or(&[]));
            Ok(won::<K>(heap, &text, &second, packet)?)
        }
        _ => Ok(String::from_str(heap, "no such case\n")?),
    }
}

// A call and a kind are named by their words in patterns, since a type for them would be made from the word and matched once.
fn answer(heap: Global, case: &str) -> Result<String, Unanswered> {
    let words: Vec<&str> = case.split(' ').collect(heap)?;
    match words.as_slice() {
        [call, "1", words @ ..] => of_kind::<Verdicts>(heap, call, words),
        [call, "2", words @ ..] => of_kind::<Marks>(heap, call, words),
        _ => Ok(String::from_str(heap, "no such kind\n")?),
    }
}

// A loop of its own in each program of cases: one for both would take what answers a case, and promise nothing of what is printed.
fn main(rt: HostRuntime) -> anyhow::Result<()> {
    for case in BufReader::new(rt.alloc(), rt.stdin())?.lines(rt.alloc()) {
        rt.print(answer(rt.alloc(), case?.as_str())?)?;
    }
    Ok(())
}
