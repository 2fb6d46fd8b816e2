//! Whether mentions are of declarations.

ghost use Rattle.std.specs.Prelude.{◌↔◌, IsTrue, length};
ghost use Rattle.psc_groups.specs.Graph.{AllDeclared};
ghost use Rattle.psc_groups.specs.Groups.{AllBelow};

/// Whether each mention is of a declaration: its number is below that of the declarations.
pub fn are_declared(mentions: &[Vec<u32>]) -> bool
    ensures { IsTrue result ↔ AllDeclared mentions.now }
{
    for list in mentions {
        if !all_below(list, mentions.len()) {
            return false;
        }
    }
    true
}

fn all_below(list: &[u32], end: usize) -> bool
    ensures { IsTrue result ↔ AllBelow list.now end }
{
    for number in list {
        if *number as usize >= end {
            return false;
        }
    }
    true
}
