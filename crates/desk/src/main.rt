// The support desk of a tape library. Its job so far is the overdue report: which cartridges of an inventory are due for a check.
#![tactic(auto)]

use anyhow::anyhow;
use inventory::fault::Field;
use inventory::line::number;
use inventory::report::{Report, overdue_report};
use inventory::row::write_row;
use std::env;
use std::io::Read;

// The only argument: a check that is due before this day is overdue.
fn day_limit(rt: &HostRuntime) -> anyhow::Result<u16> {
    let Some(word) = env::args(rt)?.nth(1) else {
        return Err(anyhow!("usage: desk DAY < INVENTORY"));
    };
    match number(word.as_bytes(), Field::Day, 65535) {
        Ok(day) => Ok(u16::try_from(day)?),
        Err(fault) => {
            eprintln!(rt; "the limit: {fault}")?;
            Err(anyhow!("usage: desk DAY < INVENTORY"))
        }
    }
}

fn print_report(rt: &HostRuntime, report: &Report, limit: u16) -> anyhow::Result<()> {
    let lines = report.lines;
    println!(rt; "{lines} lines read")?;
    for note in report.notes.iter() {
        println!(rt; "{note}")?;
    }
    let cartridges = report.cartridges;
    if cartridges == 0 {
        println!(rt; "no cartridges")?;
        return Ok(());
    }
    let (gigabytes, day) = report.total;
    println!(rt;
        "{cartridges} cartridges, {gigabytes} gigabytes in all, earliest check day {day}"
    )?;
    let count = report.overdue.len();
    println!(rt; "{count} overdue before day {limit}")?;
    for row in report.overdue.iter() {
        rt.println(write_row(rt.alloc(), *row)?)?;
    }
    Ok(())
}

fn run(rt: &HostRuntime) -> anyhow::Result<()> {
    let limit = day_limit(rt)?;
    let mut text = Vec::new(rt.alloc());
    rt.stdin().read_to_end(&mut text)?;
    let report = overdue_report(rt.alloc(), text.as_slice(), limit)?;
    print_report(rt, &report, limit)
}

fn main(rt: HostRuntime) -> anyhow::Result<()> {
    run(&rt)
}
