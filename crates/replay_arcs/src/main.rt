//! Reads arcs. Those with the answers of a maths host are drawn by it, and their curves are printed.
//! Those with places are drawn by the series host and compared with the places, and what came
//! of them is printed at the end. At a damaged record a line says so, and nothing follows.
#![tactic(auto)]

ghost use Rattle.std.specs.Prelude.{◌≡◌, true};
ghost use Rattle.maths.specs.Functions.{restricted};
ghost use Rattle.maths.specs.Series.{series};
ghost use Rattle.maths.specs.Tables.{tabled};
ghost use Rattle.arcs.specs.Ends.{curves_of};

use crate::compared::compare;
use crate::record::{Damaged, Record, Records};
use crate::summary::{BEYOND, Summary};
use arcs::arc_to::ArcTo;
use arcs::ellipse::arc_curves;
use arcs::few::Few;
use job::item::Item;
use lines::line::PrintedLine;
use maths::byte_rows::decoded;
use maths::host::MathsHost;
use maths::series::SeriesHost;
use maths::table::{Row, TableHost};
use path::command::Command;
use std::io;
use std::io::Read;

mod compared;
mod record;
mod summary;
mod tally;

fn main(rt: HostRuntime) -> io::Result<()> {
    let mut bytes = Vec::new(rt.alloc());
    rt.stdin().read_to_end(&mut bytes)?;
    let mut summary = Summary::new(rt.alloc());
    for record in Records::new(&bytes) {
        match record {
            Err(Damaged) => return println!(rt; "! a record is damaged"),
            Ok(Record::Asked(asked)) => {
                let rows = decoded(rt.alloc(), asked.rows)?;
                let curves = curves_by_rows(asked.arc, asked.alone, &rows);
                print_curves(&rt, curves.as_slice())?;
            }
            Ok(Record::Noted(noted)) => {
                let curves = curves_by_series(noted.arc);
                summary.count(noted.kind, noted.arc, compare(noted, curves.as_slice()))?;
            }
        }
    }
    print_summary(&rt, summary)
}

fn curves_by_rows(arc: ArcTo, alone: bool, rows: &[Row]) -> Few
    ensures { result.items ≡ curves_of (tabled rows.now) alone arc }
{
    curves(TableHost::new(rows), arc, alone)
}

fn curves_by_series(arc: ArcTo) -> Few
    ensures { result.items ≡ curves_of (restricted series) true arc }
{
    curves(SeriesHost::new(), arc, true)
}

fn curves<K: MathsHost + Drop>(mut host: K, arc: ArcTo, alone: bool) -> Few
    ensures { result.items ≡ curves_of (K.acts.functions host) alone arc }
{
    arc_curves(arc, alone, &mut host)
}

fn print_curves(rt: &HostRuntime, curves: &[Command]) -> io::Result<()> {
    for curve in curves {
        println!(rt; "{}", PrintedLine::Item(Item::Path(*curve)))?;
    }
    println!(rt; "= {}", curves.len())
}

fn print_summary(rt: &HostRuntime, summary: Summary) -> io::Result<()> {
    for (flags, tally) in &summary.flags {
        println!(rt; "{flags}, kinds below {BEYOND}: {tally}")?;
    }
    for (kind, tally) in &summary.kinds {
        println!(rt; "kind {kind}: {tally}")?;
    }
    Ok(())
}
