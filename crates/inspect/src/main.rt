//! Reads town.map in its folder, in seconds, and prints what stands in it.
#![tactic(auto)]

ghost use Rattle.std.specs.Prelude.{◌≡◌, true, length};
ghost use Rattle.town.specs.Reads.{Reads};
ghost use Rattle.town_record.specs.Measures.{seconds_form};

use graph::map::Map;
use measure::Measure;
use measure::seconds::Seconds;
use std::fs;
use town::room::Room;
use town::room::reserve::{MOST_ARCS, MOST_PLACES};
use town::rows::Rows;
use town_record::name::Name;

/// Whether writing the rows back gives the bytes of a file: it does for the file that they were read from.
fn written_back(rows: &Rows<Seconds>, file: &[u8], out: &mut [u8]) -> bool
    ensures { Reads seconds_form file.now rows.now → length out.old ≡ length file.now → result ≡ true }
{
    rows.write(out).is_ok() && *out == *file
}

/// Prints a line for a place: its number, its name, its rank and how many arcs arrive there.
fn print_place(
    rt: &HostRuntime,
    rows: &Rows<Seconds>,
    place: usize,
    rank: u32,
    name: &Name,
) -> anyhow::Result<()> {
    let arrivals = rows.arrivals(place);
    println!(rt; "{place} {name} {rank} {arrivals}")?;
    Ok(())
}

/// Prints what stands in the rows, and whether they are written back as the file.
fn print_rows(rt: &HostRuntime, rows: &Rows<Seconds>, file: &[u8]) -> anyhow::Result<()> {
    let places = rows.places();
    let arcs = rows.arcs();
    println!(rt; "{places} places, {arcs} arcs")?;
    for (place, (rank, name)) in rows.ranks().iter().zip(rows.names()).enumerate() {
        print_place(rt, rows, place, *rank, name)?;
    }
    let mut out = vec![in rt.alloc(); 0u8; file.len()]?;
    let bytes = if written_back(rows, file, &mut out) {
        "the same bytes"
    } else {
        "other bytes"
    };
    println!(rt; "written back: {bytes}")?;
    Ok(())
}

fn main(rt: HostRuntime) -> anyhow::Result<()> {
    // a file that cannot be opened counts as empty
    let file = fs::read(&rt, "town.map").unwrap_or_else(|_| Vec::new(rt.alloc()));
    let room = Room::reserve(rt.alloc(), MOST_PLACES, MOST_ARCS)?;
    match Rows::<Seconds>::read(&file, room) {
        Ok(rows) => print_rows(&rt, &rows, &file)?,
        Err(rejection) => {
            let fault = rejection.fault;
            println!(rt; "! {fault}")?;
        }
    }
    Ok(())
}
