// A test program: a day with thirty loans out and strokes mixed. It prints the answers and the last line, and then the bytes of the texture
// that changed. The texture, the orders and the expected output, in the file stdout beside this crate's src, were made by
// tools/expected_busy_day.py, which uses none of this code.
#![tactic(auto)]

use orders::{Reply, room_for, run_day};
use std::io::Write;
use std::{fs, io};

fn main(rt: HostRuntime) -> io::Result<()> {
    let before = fs::read(&rt, "master.dds")?;
    let orders = fs::read(&rt, "orders.txt")?;
    let mut after = before.clone()?;
    let mut answers = Vec::new(rt.alloc());
    answers.reserve(room_for(&orders))?;
    let Ok(ending) = run_day(&mut after, &orders, &mut answers) else {
        unreachable!("the room is reserved")
    };
    let mut out = io::writer(&rt);
    out.write_all(&answers)?;
    out.write_all(Reply::from(ending).line().as_str().as_bytes())?;
    for (place, (old, new)) in before.iter().zip(&after).enumerate() {
        if old != new {
            println!(rt; "{place}: {old:02x} {new:02x}")?;
        }
    }
    Ok(())
}
