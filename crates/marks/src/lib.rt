// Nothing runs here: the marks of document 01 are in specs/Marks.
#![tactic(auto)]
