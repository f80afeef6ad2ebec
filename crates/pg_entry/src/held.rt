ghost use Rattle.std.specs.Prelude.{⊤, ◌≡◌, ◌≤◌};
ghost use Rattle.pg_entry.specs.Rules.{rule_names, holds, without};

use crate::Rules;
use bitflags::{Flag, Flags, bitflag_items};

bitflag_items! {
    impl Rules: u8 {
        const FAULT_TRANSLATIONS = 1;
        const FAULT_GLOBALS = 2;
        const FAULT_STRUCTURES = 4;
        const INVLPG_STRUCTURES = 8;
        const INVPCID_STRUCTURES = 16;
    }
}

impl Flags for Rules {
    type Bits = u8;

    ghost exact = { ⊤ };

    ghost table = { rule_names };

    ghost set_of = { λ r. r.0 };

    fn flags<'a>() -> &'a [Flag<Rules>] {
        Rules::FLAGS
    }

    fn bits(&self) -> u8 {
        self.0
    }

    fn from_bits_retain(bits: u8) -> Rules {
        Rules(bits)
    }
}

impl Rules {
    /// All rules: a processor of Intel's manual.
    pub const ALL: Rules = Rules(31);

    /// What AMD's manual promises, as far as memory goes (volume 2, section 5.5): all but what a
    /// page fault drops.
    pub const AMD: Rules = Rules(24);

    /// None of those that can be left out.
    pub const LAX: Rules = Rules(0);

    /// All of them but this one.
    pub fn without(self, rule: Rules) -> Rules
        requires { rule.0 ≤ 31 }
        ensures { result ≡ without rule.0 self }
    {
        Rules(self.0 & (31 - rule.0))
    }

    /// Whether they hold a processor to a rule.
    #[inline(always)]
    pub fn holds(self, rule: Rules) -> bool
        ensures { result ≡ holds self rule.0 }
    {
        self.contains(rule)
    }
}
