// Laws of lines.
ghost use Rattle.std.specs.Prelude.{◌≡◌, ℕ, List};
ghost use Rattle.command_defs.specs.Commands.{Name, Command, Run, IsFormed, IsWhole};
ghost use Rattle.command_defs.specs.Parts.{trimmed};
ghost use Rattle.command_defs.specs.Sections.{Section, begun, IsSound};
ghost use Rattle.command_defs.specs.Script.{Position, Outside, Within, Skips, Goes, Ends, line_reading};
ghost use Rattle.command_defs.specs.Spelling.{IsEnded, IsIgnored, SpellsCommand, BeginsSection, Continues, EndsSection};

/// What is ignored at a line's end is that and no more: spaces, at most one carriage return, and again spaces.
pub fn ends_are_ignored()
    ensures found { (line : List ℕ) → IsEnded (trimmed line) line }
    ensures only { (text line : List ℕ) → IsEnded text line → trimmed line ≡ text }
{}

/// A line between commands is read as a command of one line exactly where it spells that one, so that it spells one at most;
/// and it begins a section exactly where it says so.
pub fn commands_are_read_as_spelled()
    ensures found { (line : List ℕ) (command : Command) → line_reading Outside line ≡ Ends command → SpellsCommand line command }
    ensures only { (line : List ℕ) (command : Command) → SpellsCommand line command → line_reading Outside line ≡ Ends command }
    ensures begun { (line : List ℕ) (p : Position) → line_reading Outside line ≡ Goes p → (site : Name) × (p ≡ Within (begun site)) × BeginsSection line site }
    ensures begins { (line : List ℕ) (site : Name) → BeginsSection line site → line_reading Outside line ≡ Goes (Within (begun site)) }
{}

/// A line is ignored exactly where it's blank or a comment, wherever it stands.
pub fn blank_lines_and_comments_are_ignored()
    ensures found { (p : Position) (line : List ℕ) → line_reading p line ≡ Skips → IsIgnored line }
    ensures only { (p : Position) (line : List ℕ) → IsIgnored line → line_reading p line ≡ Skips }
{}

/// A section goes on exactly where a line is an updater's TSTART, TCOMMIT or statement that it takes there, and to exactly that
/// section; and it ends exactly at an END with no open transaction, with all its jobs.
pub fn sections_are_read_as_spelled()
    ensures goes { (s : Section) (line : List ℕ) (p : Position) → line_reading (Within s) line ≡ Goes p → (next : Section) × (p ≡ Within next) × Continues s line next }
    ensures continues { (s : Section) (line : List ℕ) (next : Section) → Continues s line next → line_reading (Within s) line ≡ Goes (Within next) }
    ensures ends { (s : Section) (line : List ℕ) (command : Command) → line_reading (Within s) line ≡ Ends command → (command ≡ Run s.name s.jobs s.order) × EndsSection s line }
    ensures ended { (s : Section) (line : List ℕ) → EndsSection s line → line_reading (Within s) line ≡ Ends (Run s.name s.jobs s.order) }
{}

/// The sections that lines come to are sound. A command that a line ends has names, numbers and jobs of their form, and a
/// section's order uses up its jobs.
pub fn commands_are_whole()
    ensures begun { (line : List ℕ) (s : Section) → line_reading Outside line ≡ Goes (Within s) → IsSound s }
    ensures stays { (s : Section) (line : List ℕ) (next : Section) → IsSound s → line_reading (Within s) line ≡ Goes (Within next) → IsSound next }
    ensures commands { (line : List ℕ) (command : Command) → line_reading Outside line ≡ Ends command → IsFormed command × IsWhole command }
    ensures sections { (s : Section) (line : List ℕ) (command : Command) → IsSound s → line_reading (Within s) line ≡ Ends command → IsFormed command × IsWhole command }
{}
