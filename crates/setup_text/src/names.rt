//! The names of the tables of a text, in order of first appearance.

ghost use Rattle.std.specs.Prelude.{◌≡◌, ◌∷◌, ◌++◌, [], None, OnOk, OnErr};
ghost use Rattle.std.specs.Option.{option_map};
ghost use Rattle.setup_text.specs.Drafts.{found_name};

use indexmap::IndexMap;
use no_memory::NoMemory;
use std::alloc::Global;
use std::marker::Model;

/// Names of tables, each with whether its table reaches no state but I.
#[derive(Drop)]
pub struct Names {
    alloc: Global,
    found: IndexMap<Vec<u8>, bool>,
}

impl Model for Names {
    ghost use Rattle.std.specs.Prelude.{List, map};
    ghost use Rattle.setup_text.specs.Drafts.{Named};

    ghost Value = { List Named };

    ghost view = { λ n. map (λ e. (e.0.items, e.1)) n.found.entries };
}

impl Names {
    pub fn new(alloc: Global) -> Names
        ensures { result ≡ [] }
    {
        Names {
            alloc,
            found: IndexMap::new(alloc),
        }
    }

    /// The place of a name, from 0, and whether its table reaches no state but I.
    pub fn find(&self, name: &[u8]) -> Option<(usize, bool)>
        ensures { result ≡ found_name self.now name.now }
    {
        let place = self.found.get_index_of(name)?;
        let stays = self.found[place];
        Some((place, stays))
    }

    pub fn push(&mut self, name: &[u8], stays_invalid: bool) -> Result<(), NoMemory>
        requires { found_name self.old name.now ≡ None }
        ensures ok { OnOk result (self.new ≡ self.old ++ (name.now, stays_invalid) ∷ []) }
        ensures err { OnErr result (self.new ≡ self.old) }
    {
        let mut bytes = Vec::new(self.alloc);
        let Ok(()) = bytes.extend_from_slice(name) else {
            return Err(NoMemory);
        };
        let Ok(_) = self.found.insert(bytes, stays_invalid) else {
            return Err(NoMemory);
        };
        Ok(())
    }
}
