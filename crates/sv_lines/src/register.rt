//! The lines that declare the things of one kind, with a table of what they say.
ghost use Rattle.std.specs.Prelude.{◌≡◌, [], ◌∷◌, ◌++◌, Some, OnOk, OnErr};
ghost use Rattle.std.specs.BTreeMap.{IsEmpty, get};
ghost use Rattle.std.specs.Ordering.{nat_cmp};
ghost use Rattle.sv_lines.specs.Tables.{Puts, IsAsBefore};

use std::alloc::{AllocError, Global};
use std::collections::BTreeMap;
use sv_model::line::Line;

/// The declaring lines in order, and what each says of its number.
#[derive(Drop)]
pub struct Register<V: Copy + Drop> {
    pub lines: Vec<Line>,
    pub table: BTreeMap<u32, V>,
}

impl<V: Copy + Drop> Register<V> {
    /// No line yet. Takes no memory.
    pub fn new(alloc: Global) -> Register<V>
        ensures lines { result.lines.items ≡ [] }
        ensures table { IsEmpty result.table }
    {
        Register {
            lines: Vec::new(alloc),
            table: BTreeMap::new(alloc),
        }
    }

    /// What is said of a number, where a line declares it.
    pub fn get(&self, number: u32) -> Option<V>
        ensures { result ≡ get nat_cmp self.now.table number }
    {
        self.table.get(&number).copied()
    }

    /// Takes a line, which says this of that number.
    pub fn push(&mut self, number: u32, says: V, line: Line) -> Result<(), AllocError>
        ensures lines { OnOk result (self.new.lines.items ≡ self.old.lines.items ++ line ∷ []) }
        ensures table { OnOk result (Puts self.old.table self.new.table number says) }
        ensures fault { OnErr result ((self.new.lines.items ≡ self.old.lines.items)
            × IsAsBefore self.old.table self.new.table) }
    {
        self.lines.reserve(1)?;
        self.table.insert(number, says)?;
        self.lines.push(line).unwrap();
        Ok(())
    }
}
