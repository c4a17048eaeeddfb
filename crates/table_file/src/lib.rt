// The file `table` in the folder that a program is started in.
#![tactic(auto)]

ghost use Rattle.std.specs.Prelude.{◌≤◌, length, IfSome};

use std::fs;
use std::io::Read;
use std::rt::Files;

// Reads until the table is full, the file ends or a read fails: how many bytes stand at its start.
fn read_full<R: Read>(file: &mut R, table: &mut [u8]) -> usize
    ensures { result ≤ length table.new }
{
    let mut done: usize = 0;
    while done < table.len() {
        let Ok(n) = file.read(&mut table[done..]) else {
            return done;
        };
        if n == 0 {
            return done;
        }
        done += n;
    }
    done
}

// How many of the file's bytes were read; none where it is missing.
pub fn read_table<R: Files>(files: &R, table: &mut [u8]) -> Option<usize>
    ensures { IfSome result (λ n. n ≤ length table.new) }
{
    let mut file = fs::open(files, "table").ok()?;
    Some(read_full(&mut file, table))
}
