//! Runs the command on each row of standard input, and prints each row that is answered otherwise than it
//! says. What a row is, standard input says at its head. The answers of each script are audited as claims, as
//! they stand and with each of them changed.
#![tactic(auto)]

mod log;
mod row;
mod run;

use row::Row;
use std::io;

fn main(rt: HostRuntime) -> io::Result<()> {
    let mut row = Row::new(rt.alloc());
    let mut rows: u64 = 0;
    let mut claims: u64 = 0;
    for line in rt.lines(rt.alloc()) {
        if row.is_whole_with(line?.as_str())? {
            rows = rows.saturating_add(1);
            if !row.is_answered() {
                println!(rt; "{row}")?;
            }
            match row.audited_claims()? {
                Some(count) => claims = claims.saturating_add(count),
                None => println!(rt; "{row}: as claims")?,
            }
        }
    }
    println!(rt; "{rows} rows, {claims} claims")
}
