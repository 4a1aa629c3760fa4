// The day: reads prices from files and prints the reference prices and the real-time averages that they give.
#![tactic(auto)]

mod averages;
mod lines;
mod reference_prices;
mod table;

use lines::bad_word_line;
use numerals::{BadText, read_numbers};
use realtime::feed::{DispatchFeed, HaspFeed};
use reference::history::History;
use std::fs;
use table::show_table;

const HISTORY_FILE: &str = "history.txt"; // last year's prices

const DISPATCH_FILE: &str = "dispatch.txt"; // five-minute prices

const HASP_FILE: &str = "hasp.txt"; // fifteen-minute prices

/// Shows the list of numbers in a file, or prints why it has none.
fn show_file<S>(rt: &HostRuntime, file: &str, show: S) -> anyhow::Result<()>
where
    S: Fn(&str, &[i32]) -> anyhow::Result<()>,
    requires { S.IsAlwaysCallable show }
{
    let heap = rt.alloc();
    let Ok(text) = fs::read_to_string(rt, file) else {
        println!(rt; "{file}: cannot be read")?;
        return Ok(());
    };
    match read_numbers(heap, text.as_str()) {
        Ok(numbers) => show(file, numbers.as_slice()),
        Err(BadText::NotANumber(word)) => Ok(rt.println(bad_word_line(heap, file, word)?)?),
        Err(fault) => Err(fault.into()),
    }
}

/// Shows each file.
fn run(rt: &HostRuntime) -> anyhow::Result<()> {
    show_file(rt, HISTORY_FILE, |file, list| {
        show_table(rt, file, History::open(list))
    })?;
    show_file(rt, DISPATCH_FILE, |file, list| {
        show_table(rt, file, DispatchFeed::open(list))
    })?;
    show_file(rt, HASP_FILE, |file, list| {
        show_table(rt, file, HaspFeed::open(list))
    })
}

/// Shows the files that lie where the program runs.
fn main(rt: HostRuntime) -> anyhow::Result<()> {
    run(&rt)
}
