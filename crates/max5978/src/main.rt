//! The console on standard input: a script in, an answer to each line out.
#![tactic(auto)]

use std::io;
use std::io::{BufWriter, Write};

fn main(rt: HostRuntime) -> io::Result<()> {
    let script = session::read(rt.stdin(), rt.alloc())?;
    let mut out = BufWriter::new(rt.alloc(), rt.stdout())?;
    session::run(&mut out, &script)?;
    out.flush()
}
