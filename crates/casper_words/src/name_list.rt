ghost use Rattle.std.specs.Prelude.{◌≡◌, [], ◌∷◌, ◌++◌, ◌<◌, ◌≤◌, length, IfOk};

use crate::{Memory, Name};
use std::alloc::Global;
use std::marker::Model;

/// At most 64 names, with room for all of them from the start. Contracts see the list.
#[derive(Drop)]
pub struct NameList {
    names: Vec<Name>,
}

impl Model for NameList {
    ghost use Rattle.std.specs.Prelude.{ℕ, List, ◌≤◌, vec_len, vec_capacity};

    ghost Value = { List (List ℕ) };

    ghost view = { λ list. list.names.items };

    ghost invariant = { λ list. (64 ≤ vec_capacity list.names) × (vec_len list.names ≤ 64) };
}

impl NameList {
    /// The greatest number of names.
    pub const MOST: usize = 64;

    /// The empty list.
    pub fn new(alloc: Global) -> Result<NameList, Memory>
        ensures empty { IfOk result (λ list. list ≡ []) }
    {
        let names = Vec::with_capacity(alloc, NameList::MOST)?;
        Ok(NameList { names })
    }

    /// Adds a name at the end. It takes no memory.
    pub fn push(&mut self, name: Name)
        requires { length self.old < 64 }
        ensures added { self.new ≡ self.old ++ name ∷ [] }
    {
        self.names.push_reserved(name);
    }

    /// The names in order, at most 64.
    pub fn as_slice(&self) -> &[Name]
        ensures names { result.now ≡ self.now }
        ensures few { length self.now ≤ 64 }
    {
        self.names.as_slice()
    }
}

#[cfg(test)]
mod tests {
    use super::*;
    use std::test::Fail;

    #[test]
    fn keeps_names(rt: HostRuntime) -> Result<(), Fail> {
        let mut names = NameList::new(rt.alloc())?;
        assert_eq!(rt; names.as_slice().len(), 0);
        names.push(Name::new(b"root").ok_or("no name")?);
        assert_eq!(rt; names.as_slice().len(), 1);
        Ok(())
    }
}
