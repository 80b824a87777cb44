// Lines of output: a label, and a number behind it.
use std::io;

// Writes a label, a space, a number in decimal and a line feed.
pub fn decimal(rt: &impl Print, label: &[u8], n: u64) -> io::Result<()> {
    rt.write_all(label)?;
    println!(rt; " {n}")
}

// Writes a label, a space, a number in hexadecimal of at least so many digits and a line feed. A width above 16 counts as 16.
pub fn hex(rt: &impl Print, label: &[u8], n: u64, width: usize) -> io::Result<()> {
    let width = width.min(16);
    rt.write_all(label)?;
    println!(rt; " {n:0width$x}")
}
