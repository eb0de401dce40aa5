// Reads sound and damaged records and writes what each call answers: opening (the number of pointers, or the refusal), the patient
// identifier's place and length, the rows whose rules are broken, each asked alone, the leads at places 0 to 3 with their samples, and the
// auditor's index as it grows; at the end its bytes, where the entries of 007 and of 7 are in it, and what merging it with itself, with a
// damaged one, and into too little room answers.
#![tactic(auto)]

ghost use Rattle.std.specs.Prelude.{◌≤◌, length};

use fields::Part;
use filing::Indexed;
use leads::Lead;
use refusals::Refusal;
use std::fs::File;
use std::io::Read;
use std::{env, io};

// The most samples that a lead of these records has; more is refused with 11.
fn room() -> [i16; 40] {
    [0; 40]
}

fn put_samples(rt: &HostRuntime, xs: &[i16], n: usize) -> io::Result<()> {
    for x in xs.iter().take(n) {
        print!(rt; " {x}")?;
    }
    println!(rt;)
}

// The refusal that an answer for C has as a number.
fn put_refusal(rt: &HostRuntime, number: u8) -> io::Result<()> {
    println!(rt; "refused, {number}")
}

fn show_opening(rt: &HostRuntime, rec: &[u8]) -> io::Result<()> {
    let mut numbers = [0u32; 192];
    print!(rt; "  open: ")?;
    match record::open(rec, &mut numbers) {
        Ok(count) => println!(rt; "{count} pointers"),
        Err(refusal) => println!(rt; "{refusal}"),
    }
}

// A part, as how many bytes stand where.
fn put_place(rt: &HostRuntime, place: Result<Part, Refusal>) -> io::Result<()> {
    match place {
        Ok(part) => println!(rt; "{} bytes at {}", part.size, part.start),
        Err(refusal) => println!(rt; "{refusal}"),
    }
}

fn show_identifier(rt: &HostRuntime, rec: &[u8]) -> io::Result<()> {
    print!(rt; "  identifier: ")?;
    put_place(rt, fields::field_place(rec, 2, 1))
}

fn show_rows(rt: &HostRuntime, rec: &[u8]) -> io::Result<()> {
    print!(rt; "  broken rows:")?;
    for row in 1..10u8 {
        if !rules::row_kept(rec, row) {
            print!(rt; " {row}")?;
        }
    }
    println!(rt;)
}

// Prints the answer that goes with a lead's samples.
fn put_lead(rt: &HostRuntime, lead: Lead) -> io::Result<()> {
    print!(rt;
        "ID {}, flags {}, step {}, interval {}, ",
        lead.id, lead.flags, lead.step, lead.interval
    )?;
    print!(rt; "from {}, {} compared:", lead.first, lead.compared)
}

fn show_lead(
    rt: &HostRuntime,
    rec: &[u8],
    place: usize,
    out: &mut [i16],
    work: &mut [i16],
) -> io::Result<()> {
    let lead = leads::read_lead(rec, place, out, work);
    if lead.refusal != 0 {
        return put_refusal(rt, lead.refusal);
    }
    put_lead(rt, lead)?;
    put_samples(rt, out, lead.count as usize)
}

// With room of its own for each lead, so that none shows what another left.
fn show_place(rt: &HostRuntime, rec: &[u8], place: usize) -> io::Result<()> {
    let mut out = room();
    let mut work = room();
    print!(rt; "  lead {place}: ")?;
    show_lead(rt, rec, place, &mut out, &mut work)
}

fn show_leads(rt: &HostRuntime, rec: &[u8]) -> io::Result<()> {
    for place in 0..4 {
        show_place(rt, rec, place)?;
    }
    Ok(())
}

// Shows how many bytes of an index are in use then, or the refusal; answered is how many are, where `used` were before.
fn show_used(rt: &HostRuntime, indexed: Indexed, used: usize) -> io::Result<usize> {
    if indexed.refusal != 0 {
        put_refusal(rt, indexed.refusal)?;
        return Ok(used);
    }
    println!(rt; "{} bytes", indexed.used)?;
    Ok(indexed.used)
}

// Adds the record to the index; answered is how many bytes of it are in use then.
fn show_adding(rt: &HostRuntime, rec: &[u8], index: &mut [u8], used: usize) -> io::Result<usize> {
    let added = filing::add(index, used, rec);
    print!(rt; "  index: ")?;
    show_used(rt, added, used)
}

// Merges two indexes; answered is how many bytes of the output are in use then.
fn show_merging(rt: &HostRuntime, a: &[u8], b: &[u8], out: &mut [u8]) -> io::Result<usize> {
    let merged = merging::merge(a, b, out);
    print!(rt; "merged: ")?;
    show_used(rt, merged, 0)
}

fn show_index(rt: &HostRuntime, index: &[u8], used: usize) -> io::Result<()> {
    print!(rt; "the index:")?;
    for i in 0..used {
        print!(rt; " {:02x}", wire::byte(index, i))?;
    }
    println!(rt;)
}

fn show_entries(rt: &HostRuntime, index: &[u8], used: usize, identifier: &str) -> io::Result<()> {
    print!(rt; "{identifier}: ")?;
    put_place(rt, index::find_place(index, used, identifier.as_bytes()))
}

// As many bytes of a file are read.
const MOST_READ: usize = 4096;

// The first bytes of a file, up to the end or to a read that fails; answered is how many.
fn read_into(file: &mut File, buffer: &mut [u8]) -> usize
    ensures { result ≤ length buffer.new }
{
    let mut n: usize = 0;
    for _ in 0..buffer.len() {
        match file.read(&mut buffer[n..]) {
            Ok(0) => break,
            Ok(more) => n += more,
            Err(_) => break,
        }
    }
    n
}

fn show_record(rt: &HostRuntime, rec: &[u8], index: &mut [u8], used: usize) -> io::Result<usize> {
    show_opening(rt, rec)?;
    show_identifier(rt, rec)?;
    show_rows(rt, rec)?;
    show_leads(rt, rec)?;
    show_adding(rt, rec, index, used)
}

// A file that cannot be opened is named on standard error, and the next one is shown.
fn show_file(rt: &HostRuntime, path: &str, index: &mut [u8], used: usize) -> io::Result<usize> {
    println!(rt; "{path}")?;
    match File::open(rt, path) {
        Ok(mut file) => {
            let mut buffer = [0u8; MOST_READ];
            let n = read_into(&mut file, &mut buffer);
            show_record(rt, &buffer[..n], index, used)
        }
        Err(error) => {
            eprintln!(rt; "{path}: {error}")?;
            Ok(used)
        }
    }
}

fn show_arguments(rt: &HostRuntime, index: &mut [u8]) -> io::Result<usize> {
    let mut used = 0;
    for path in env::args(rt)?.skip(1) {
        used = show_file(rt, path.as_str(), index, used)?;
    }
    Ok(used)
}

fn main(rt: HostRuntime) -> io::Result<()> {
    let mut index = [0u8; 256];
    let used = show_arguments(&rt, &mut index)?;
    show_index(&rt, &index, used)?;
    show_entries(&rt, &index, used, "007")?;
    show_entries(&rt, &index, used, "7")?;
    let whole = wire::part_of(&index, 0, used);
    let mut both = [0u8; 512];
    let end = show_merging(&rt, whole, whole, &mut both)?;
    show_entries(&rt, &both, end, "7")?;
    show_merging(&rt, whole, wire::part_of(&index, 1, used), &mut both)?;
    let mut little = [0u8; 200];
    show_merging(&rt, whole, whole, &mut little)?;
    Ok(())
}
