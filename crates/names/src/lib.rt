// The command language of the bench, its names: the first word of a line is the command, and each command takes a number of
// arguments.
#![tactic(auto)]

ghost use Rattle.std.specs.Prelude.{◌≡◌};
ghost use Rattle.names.specs.Names.{entry_of, takes as ofNames·takes};

use params::SET;
use words::is_same;

// A set of parameters, all of it or nothing.
const A_SET: u8 = SET as u8;

#[derive(Clone, Copy)]
pub enum Name {
    New,
    Show,
    Strip,
    Inv,
    Install,
    Remove,
    Params,
    Link,
    Unlink,
    In,
    Out,
    Tel,
    Time,
    Percent,
    Why,
    Write,
}

// A command, how many arguments it takes, and how many more may follow.
#[derive(Clone, Copy)]
pub struct Entry {
    pub name: Name,
    plain: u8,
    more: u8,
}

// The commands by their words, as in an entry.
const TABLE: [(&[u8], Name, u8, u8); 16] = [
    (b"install", Name::Install, 2, A_SET),
    (b"remove", Name::Remove, 1, 0),
    (b"params", Name::Params, 1, A_SET),
    (b"link", Name::Link, 3, 0),
    (b"unlink", Name::Unlink, 3, 0),
    (b"in", Name::In, 2, 0),
    (b"out", Name::Out, 2, 0),
    (b"tel", Name::Tel, 2, 0),
    (b"time", Name::Time, 1, 0),
    (b"strip", Name::Strip, 0, 0),
    (b"inv", Name::Inv, 0, 0),
    (b"percent", Name::Percent, 1, 0),
    (b"why", Name::Why, 3, 0),
    (b"write", Name::Write, 0, 1),
    (b"show", Name::Show, 0, 0),
    (b"new", Name::New, 0, 0),
];

impl Entry {
    // The command that a word names.
    #[tactic(auto, unfolding(texts::specs::Text::text, laws::specs::Fills::tabulate, crate::specs::Names::entry_in, crate::specs::Names::entry_of))]
    pub fn of(word: &[u8]) -> Option<Entry>
        ensures { result ≡ entry_of word.now }
    {
        for &(letters, name, plain, more) in &TABLE {
            if is_same(word, letters) {
                return Some(Entry { name, plain, more });
            }
        }
        None
    }

    // Whether this number of arguments is taken.
    #[tactic(auto, unfolding(crate::specs::Names::takes))]
    pub fn takes(self, count: usize) -> bool
        ensures { result ≡ ofNames·takes self count }
    {
        let plain = usize::from(self.plain);
        count == plain || count == plain + usize::from(self.more)
    }
}
