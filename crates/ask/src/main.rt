// Reads a page and the keys to ask from, and prints the page and the answers to the questions from each.
#![tactic(auto)]

mod answers;
mod drawn;
mod fault;
mod lines;
mod number;
mod reply;
mod sheet;
mod table;

use crate::answers::print_answers;
use crate::sheet::Sheet;
use crate::table::print_page;
use anyhow::{Context, anyhow, ensure};
use questions::Page;

fn read_sheet(rt: &HostRuntime) -> anyhow::Result<Sheet> {
    let heap = rt.alloc();
    let mut sheet = Sheet::new(heap);
    for (number, line) in (1u64..).zip(rt.lines(heap)) {
        let line = line?;
        sheet
            .read(heap, line.as_str())
            .map_err(|fault| anyhow!("line {number}: {fault}"))?;
    }
    Ok(sheet)
}

fn run(rt: &HostRuntime) -> anyhow::Result<()> {
    let sheet = read_sheet(rt)?;
    ensure!(!sheet.starts.is_empty(), "the input has no start");
    let drawn = sheet.page.context("the input has no page")?;
    let page = Page::new(&drawn.cells, drawn.keys);
    print_page(rt, &page)?;
    for (number, start) in sheet.starts.iter().enumerate() {
        if number > 0 {
            println!(rt; "")?;
        }
        print_answers(rt, &page, *start)?;
    }
    Ok(())
}

fn main(rt: HostRuntime) -> anyhow::Result<()> {
    run(&rt)
}
