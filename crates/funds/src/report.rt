// What the program prints.
use crate::offices::*;
use code::code::Code;
use field::interface::Field;
use std::{array, io};
use terms::bounded::Cells;
use terms::servers::ServerSet;

// The records as they were written.
pub fn records(rt: &HostRuntime) -> io::Result<()> {
    println!(rt; "The fund records, sixteen cells each")?;
    println!(rt; "")?;
    for fund in &ALL_FUNDS {
        let name = fund.name;
        print!(rt; "  {name:<9} |")?;
        text(rt, &fund.record())?;
        println!(rt; "|")?;
    }
    Ok(())
}

// The whole task over one field.
pub fn task<F: Field + Copy>(rt: &HostRuntime, field: F, title: &str) -> anyhow::Result<()> {
    println!(rt; "")?;
    println!(rt; "{title}")?;
    let code = Code::new(field, OFFICES, FUNDS, CELLS, all_rows().as_flattened())?;
    let symbols = all_symbols(&code)?;
    kept(rt, &code, &symbols)?;
    losses(rt, &code)?;
    rebuilt(rt, &code, &symbols)
}

fn all_symbols<F: Field + Copy>(code: &Code<F>) -> anyhow::Result<[Cells; OFFICES]> {
    let values = all_records();
    Ok(array::try_from_fn(|s| code.symbol(s, &values))?)
}

// Each office's row and symbol.
fn kept<F: Field + Copy>(
    rt: &HostRuntime,
    code: &Code<F>,
    symbols: &[Cells; OFFICES],
) -> anyhow::Result<()> {
    println!(rt; "")?;
    println!(rt; "  office    row     symbol, cell by cell, in hexadecimal")?;
    for (s, (office, symbol)) in ALL_OFFICES.iter().zip(symbols).enumerate() {
        let name = office.name;
        print!(rt; "  {name:<8}")?;
        row(rt, code, s)?;
        hexadecimal(rt, symbol)?;
    }
    Ok(())
}

fn row<F: Field + Copy>(rt: &HostRuntime, code: &Code<F>, s: usize) -> anyhow::Result<()> {
    for x in 0..FUNDS {
        let coefficient = code.coefficient(s, x)?;
        print!(rt; " {coefficient}")?;
    }
    print!(rt; "   ")?;
    Ok(())
}

// Which sets of the offices in reach recover which fund.
fn losses<F: Field + Copy>(rt: &HostRuntime, code: &Code<F>) -> anyhow::Result<()> {
    println!(rt; "")?;
    println!(rt; "  Seoul, Mumbai and Dublin are out of reach. What the others recover:")?;
    println!(rt; "")?;
    println!(rt; "  equities  bonds  property   asked")?;
    for mask in 1..8usize {
        let set = in_reach(mask)?;
        let equities = word(code.recovers(&set, 0)?);
        let bonds = word(code.recovers(&set, 1)?);
        let property = word(code.recovers(&set, 2)?);
        print!(rt; "  {equities:<8}  {bonds:<5}  {property:<8} ")?;
        names(rt, &set)?;
    }
    Ok(())
}

fn word(recovered: bool) -> &'static str {
    if recovered { "yes" } else { "-" }
}

// The offices in reach whose bit is set.
fn in_reach(mask: usize) -> anyhow::Result<ServerSet> {
    let mut set = ServerSet::empty();
    for (office, bit) in REACHED.iter().zip([1usize, 2, 4]) {
        if mask & bit != 0 {
            set = set.with(*office)?;
        }
    }
    Ok(set)
}

fn names(rt: &HostRuntime, set: &ServerSet) -> io::Result<()> {
    for (s, office) in ALL_OFFICES.iter().enumerate() {
        if set.has(s) {
            let name = office.name;
            print!(rt; "  {name}")?;
        }
    }
    println!(rt; "")
}

// The records decoded from the symbols in reach, beside the originals.
fn rebuilt<F: Field + Copy>(
    rt: &HostRuntime,
    code: &Code<F>,
    symbols: &[Cells; OFFICES],
) -> anyhow::Result<()> {
    println!(rt; "")?;
    println!(rt; "  Rebuilt from the symbols of London, Oakland and Oregon:")?;
    println!(rt; "")?;
    let set = ServerSet::of(&REACHED)?;
    for (x, fund) in ALL_FUNDS.iter().enumerate() {
        let name = fund.name;
        print!(rt; "  {name:<9} |")?;
        match code.decode(&set, symbols, x)? {
            Some(value) => {
                text(rt, &value)?;
                let same = value.as_slice() == fund.record().as_slice();
                println!(rt;
                    "|  {}",
                    if same {
                        "as it was written"
                    } else {
                        "DIFFERENT"
                    }
                )?;
            }
            None => println!(rt; "not recovered|")?,
        }
    }
    Ok(())
}

fn text(rt: &HostRuntime, cells: &Cells) -> io::Result<()> {
    for b in cells.as_slice() {
        print!(rt; "{}", *b as char)?;
    }
    Ok(())
}

fn hexadecimal(rt: &HostRuntime, cells: &Cells) -> io::Result<()> {
    for b in cells.as_slice() {
        print!(rt; " {:02x}", *b)?;
    }
    println!(rt; "")
}
