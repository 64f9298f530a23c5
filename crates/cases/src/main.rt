// Runs the numbered cases of document 01 on a blind with the default set, and writes a line for each:
// name, tab, `same` or `differs`.
#![tactic(auto)]

fn main(rt: HostRuntime) {
    numbered::write(
        &mut rt.stdout(),
        &mut rt.stderr(),
        b"install 5 9 = 0 0\n",
        b"cases: a line could not be written\n",
    );
}
