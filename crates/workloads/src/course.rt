// Calls made one after the other: each gets the panel that the one before left.
use crate::tally::Tally;
use answers::Answered;
use panel::Panel;

// A call made n times. It is told how many turns went before it.
pub(crate) fn repeated<F: FnMut(Panel, u64) -> Answered<Panel>>(
    first: Panel,
    n: u64,
    call: F,
) -> Tally
    requires { F.IsAlwaysCallable call }
{
    settled(first, n, call, |_| ())
}

// A call made n times, and what is put back after each, on the very panel: handed through, it would be copied once more, and
// that would be timed.
pub(crate) fn settled<F: FnMut(Panel, u64) -> Answered<Panel>, G: FnMut(&mut Panel)>(
    first: Panel,
    n: u64,
    mut call: F,
    mut settle: G,
) -> Tally
    requires one { F.IsAlwaysCallable call }
    requires other { G.IsAlwaysCallable settle }
{
    let mut panel = first;
    let mut tally = Tally::none();
    for turn in 0..n {
        let done = call(panel, turn);
        panel = done.state;
        settle(&mut panel);
        tally = tally.with(done.outcome);
    }
    tally.with_panel(panel)
}

// Two calls in each of n turns: the second undoes what the first did.
pub(crate) fn undone<F: FnMut(Panel) -> Answered<Panel>, G: FnMut(Panel) -> Answered<Panel>>(
    first: Panel,
    n: u64,
    mut call: F,
    mut undoing: G,
) -> Tally
    requires one { F.IsAlwaysCallable call }
    requires other { G.IsAlwaysCallable undoing }
{
    let mut panel = first;
    let mut tally = Tally::none();
    for _ in 0..n {
        let done = call(panel);
        tally = tally.with(done.outcome);
        let back = undoing(done.state);
        panel = back.state;
        tally = tally.with(back.outcome);
    }
    tally.with_panel(panel)
}
