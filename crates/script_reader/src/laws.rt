//! What the grammar's parts come to, for every text.
ghost use Rattle.std.specs.Prelude.{◌≡◌, ◌↔◌, ℕ, List, Some};
ghost use Rattle.std.specs.List.{join_with_byte};
ghost use Rattle.script_reader.specs.Numbers.{number_in, IsDecimalIn};
ghost use Rattle.script_reader.specs.Words.{pieces_of};
ghost use Rattle.script_reader.specs.Spelled.{AreReadAsSpelled};
ghost use Rattle.script_reader.specs.Spellings.{AreLinesReadBack};
ghost use Rattle.script_reader.specs.ScriptTexts.{AreScriptsReadBack};

/// A word is read as a number exactly where it is the number's decimal form, and the number has at most
/// 10 digits and lies in the range.
pub fn numbers_are_decimal()
    ensures { (low high n : ℕ) (word : List ℕ) → (number_in low high word ≡ Some n) ↔ IsDecimalIn low high word n }
{}

/// The lines of a text, joined by line feeds, and the words of a line, joined by blanks, are the text and the line.
pub fn pieces_make_the_text()
    ensures { (byte : ℕ) (text : List ℕ) → join_with_byte byte (pieces_of byte text) ≡ text }
{}

/// A step in a `rank` line, spelled as a history spells it, is read as that step, whichever ranks the line means.
pub fn steps_are_read_as_spelled()
    ensures { AreReadAsSpelled }
{}

/// Each line behind the settings, spelled in one way, is read back as that line.
pub fn lines_are_read_back()
    ensures { AreLinesReadBack }
{}

/// Each script, spelled in one way, is read back as that script.
pub fn scripts_are_read_back()
    ensures { AreScriptsReadBack }
{}
