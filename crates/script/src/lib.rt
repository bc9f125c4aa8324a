// The script language: what is claimed of its definitions, promised by functions that do nothing.
#![tactic(auto)]

ghost use Rattle.script.specs.Claims.{CutsDoNotMatter, LinesHeldShort, ExamplesPlayed};

// Where an input is cut into chunks does not matter.
pub fn cuts_do_not_matter()
    ensures { CutsDoNotMatter }
{}

// A line is known by its first 65 bytes, which are held of it.
pub fn lines_held_short()
    ensures { LinesHeldShort }
{}

// 01's example, whole, and lines at the limits.
pub fn examples_played()
    ensures { ExamplesPlayed }
{}
