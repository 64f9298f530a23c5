// What is written of a workload: one line with its numbers, the last answer and the sum.
use crate::tally::Tally;
use std::io::Print;

pub(crate) fn write_line<R: Print>(rt: &R, numbers: [u64; 5], tally: Tally) {
    let [call, case, blinds, links, turns] = numbers;
    write_field(rt, b"call ", call);
    write_field(rt, b" case ", case);
    write_field(rt, b" blinds ", blinds);
    write_field(rt, b" links ", links);
    write_field(rt, b" turns ", turns);
    write_field(rt, b" answer ", u64::from(tally.answer));
    write_field(rt, b" sum ", tally.sum);
    let _ = rt.write_all(b"\n");
}

fn write_field<R: Print>(rt: &R, name: &[u8], value: u64) {
    let _ = rt.write_all(name);
    let _ = rt.print(value);
}
