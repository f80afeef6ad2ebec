//! Laws of scripts and of the instructions that events carry out. Each function does nothing: its
//! contract is the law.

ghost use Rattle.pg_guest.specs.ScriptLaws.{InstructionsAddUp, EachCarriesOut};
ghost use Rattle.pg_guest.specs.Spelling.{ReadingOfText};

/// The canonical text of a script is read as that script.
pub fn reading_of_text()
    ensures { ReadingOfText }
{}

/// The instructions of the processors are together as many as those of the script.
pub fn instructions_add_up()
    ensures { InstructionsAddUp }
{}

/// In version 1 each well-formed event carries an instruction out: only assists carry out none.
pub fn each_carries_out()
    ensures { EachCarriesOut }
{}
