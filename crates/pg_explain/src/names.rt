ghost use Rattle.std.specs.Prelude.{◌≡◌};
ghost use Rattle.pg_explain.specs.Names.{level_number, rights_text};

use pg_entry::{Level, Rights};

/// The number of a level: the root's is 4.
pub fn level_number(level: Level) -> u8
    ensures { result ≡ level_number level }
{
    match level {
        Level::Four => 4,
        Level::Three => 3,
        Level::Two => 2,
        Level::One => 1,
    }
}

/// Rights in three letters: `w` for write, `u` for user, `n` for not executable, and a dash for
/// each that isn't given.
pub fn rights_text(rights: Rights) -> &'static str
    ensures { result.now ≡ rights_text rights }
{
    match (rights.write, rights.user, rights.xd) {
        (true, true, true) => "wun",
        (true, true, false) => "wu-",
        (true, false, true) => "w-n",
        (true, false, false) => "w--",
        (false, true, true) => "-un",
        (false, true, false) => "-u-",
        (false, false, true) => "--n",
        (false, false, false) => "---",
    }
}
