// Measures: `speed read TURNS`, or `speed TURNS`, reads the rule text on standard input that many times, `speed pack TURNS` packs its
// rules that many times, and each prints what one turn took. Without arguments it does nothing. benchmarks/ runs it beside an
// independent implementation.
#![tactic(auto)]

use anyhow::{Context, Result, bail};
use book::Book;
use decision::Verdicts;
use pack::pack;
use std::env;
use std::io::Read;
use std::time::Instant;
use table::PackRefusal;
use text::{LIMIT, read};

fn main(rt: HostRuntime) -> Result<()> {
    let mut words = env::args(&rt)?.skip(1);
    let Some(first) = words.next() else {
        return Ok(());
    };
    match first.as_str() {
        "pack" => measure_pack(&rt, number(words.next())?),
        "read" => measure_read(&rt, number(words.next())?),
        _ => measure_read(&rt, number(Some(first))?),
    }
}

// The number of turns.
fn number(word: Option<String>) -> Result<u32> {
    let word = word.context("the number of turns is wanting")?;
    Ok(word.parse::<u32>()?)
}

// The rule text on standard input. A text above 16,384 bytes is refused, so one byte more is all that need be read.
fn input(rt: &HostRuntime) -> Result<Vec<u8>> {
    let mut text = Vec::new(rt.alloc());
    let _ = rt.stdin().take(LIMIT as u64 + 1).read_to_end(&mut text)?;
    Ok(text)
}

// The nanoseconds that one turn takes, as the mean of so many.
fn measure<F: FnMut()>(rt: &HostRuntime, turns: u32, mut turn: F) -> Result<u128>
    requires { F.IsAlwaysCallable turn }
{
    let start = Instant::now(rt)?;
    for _ in 0..turns {
        turn();
    }
    Ok(start.elapsed(rt)?.as_nanos() / u128::from(turns.max(1)))
}

fn measure_read(rt: &HostRuntime, turns: u32) -> Result<()> {
    let text = input(rt)?;
    let mut book = Book::<Verdicts>::open(rt.alloc())?;
    let mut taken: u32 = 0;
    let each = measure(rt, turns, || {
        if read(&mut book, &text).is_ok() {
            taken = taken.saturating_add(1);
        }
    })?;
    let rules = book.rules().len();
    let bytes = text.len();
    let pico = each % 1_000_000_000 * 1_000 / bytes.max(1) as u128;
    println!(rt;
        "proved: {bytes} bytes, {rules} rules, taken {taken} of {turns} times, {each} ns a text, {pico} ps a byte"
    )?;
    Ok(())
}

fn measure_pack(rt: &HostRuntime, turns: u32) -> Result<()> {
    let text = input(rt)?;
    let mut book = Book::<Verdicts>::open(rt.alloc())?;
    if read(&mut book, &text).is_err() {
        bail!("the text is no rule list");
    }
    let mut bytes = vec![in rt.alloc(); 0u8; 32_768]?;
    let mut answer = None;
    let each = measure(rt, turns, || {
        answer = Some(pack::<Verdicts, Book<Verdicts>>(rt.alloc(), &book, &mut bytes));
    })?;
    match answer {
        Some(Ok(rows)) => println!(rt; "proved: {rows} rows, pack {each} ns")?,
        Some(Err(PackRefusal::TooLarge)) => println!(rt; "proved: refused 5, {each} ns")?,
        Some(Err(PackRefusal::Memory)) | None => bail!("there is no memory"),
    }
    Ok(())
}
