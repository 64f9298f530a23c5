// Runs the numbered cases of document 01 on a wrong build, to show that they notice: a pause that is a millisecond too long,
// a wind alarm that lowers, and a frost alarm that raises. W7, R1 and R2 say nothing that hangs on a parameter, so they are
// the same here too.
#![tactic(auto)]

fn main(rt: HostRuntime) {
    numbered::write(
        &mut rt.stdout(),
        &mut rt.stderr(),
        b"install 5 9 60000 200 501 2 1 1 = 0 0\n",
        b"cases_late: a line could not be written\n",
    );
}
