// What is written of an event: its answer, the reports and the motors that run.
use std::io::Print;

// The place of each cell that is not idle, and what stands in it.
pub(crate) fn write_cells<R: Print, T: Copy + PartialEq>(rt: &R, name: &[u8], cells: &[T], idle: T)
where
    u64: From<T>,
{
    for (place, cell) in cells.iter().enumerate() {
        if *cell != idle {
            write_field(rt, name, place as u64);
            write_field(rt, b"=", u64::from(*cell));
        }
    }
}

// The program workloads has these two lines too: no crate below both is about output, and one for two lines is no plainer.
pub(crate) fn write_field<R: Print>(rt: &R, name: &[u8], value: u64) {
    let _ = rt.write_all(name);
    let _ = rt.print(value);
}

pub(crate) fn end_line<R: Print>(rt: &R) {
    let _ = rt.write_all(b"\n");
}
