// What is printed of a tree.
use crate::depths::depth;
use crate::text::{Counted, MarkWords, Noun, Quoted};
use service::tree::Tree;
use shelves::rows::ListRow;
use std::{fmt, io};

// Prints each list, and below it its entries.
pub fn print_tree(rt: &HostRuntime, tree: &Tree) -> io::Result<()> {
    let lists = tree.lists();
    let mut left = tree.entries();
    for (list, row) in lists.iter().enumerate() {
        let heading = Heading {
            list,
            row: *row,
            depth: depth(lists, list),
        };
        println!(rt; "{heading}")?;
        let (own, behind) = left.split_at(row.count.min(left.len()));
        for entry in own {
            let term = Quoted(entry.key.text());
            let marks = MarkWords(entry.payload);
            println!(rt; "  {term}{marks}")?;
        }
        left = behind;
    }
    Ok(())
}

// What stands above the entries of a list; the depth where it leads to the root.
#[derive(Clone, Copy)]
struct Heading {
    list: usize,
    row: ListRow,
    depth: Option<usize>,
}

impl fmt::Display for Heading {
    fn fmt<W: fmt::Write>(&self, f: &mut fmt::Formatter<W>) -> fmt::Result {
        let list = self.list;
        let parent = self.row.parent;
        let entries = Counted(self.row.count, Noun::Entry);
        write!(f, "list {list}: parent {parent}, depth ")?;
        match self.depth {
            Some(depth) => write!(f, "{depth}")?,
            None => f.write_str("?")?,
        }
        write!(f, ", {entries}")
    }
}
