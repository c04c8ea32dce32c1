// The names of the nodes of a network, numbered as the nodes are.
ghost use Rattle.std.specs.Prelude.{◌≡◌, ◌∷◌, [], ◌++◌, All, false, position, slice_index_or, string_bytes, IfOk, OnOk};
ghost use Rattle.std.specs.List.{list_any};
ghost use Rattle.std.specs.Str.{bytes_eq};
ghost use Rattle.pipe_topo.specs.NodeNames.{has_dot, node_names};

use crate::Names;
use indexmap::IndexSet;
use pipe_base::NoMemory;
use std::alloc::Global;
use std::marker::Model;

/// The name of each node at the node's number: a host has its own, and a switch's halves have the switch's with `.up` and
/// `.down`. Contracts see the names' bytes.
#[derive(Drop)]
pub struct NodeNames {
    names: IndexSet<Vec<u8>>,
}

impl Model for NodeNames {
    ghost use Rattle.std.specs.Prelude.{List, ℕ, map};

    ghost Value = { List (List ℕ) };

    ghost view = { λ n. map (λ name. name.items) n.names.keys };
}

impl NodeNames {
    /// Of these names the first `hosts` are those of hosts, and the others those of switches.
    pub fn new(alloc: Global, names: &Names, hosts: u16) -> Result<NodeNames, NoMemory>
        requires { All (λ name. has_dot name ≡ false) names.now }
        ensures { IfOk result (λ nodes. nodes ≡ node_names hosts names.now) }
    {
        let mut nodes = NodeNames {
            names: IndexSet::new(alloc),
        };
        for at in 0..names.len() {
            let name = names.name(at);
            if at < hosts {
                nodes.add(format!(in alloc; "{name}")?)?;
            } else {
                nodes.add(format!(in alloc; "{name}.up")?)?;
                nodes.add(format!(in alloc; "{name}.down")?)?;
            }
        }
        Ok(nodes)
    }

    fn add(&mut self, name: String) -> Result<(), NoMemory>
        requires new { list_any (bytes_eq (string_bytes name)) self.old ≡ false }
        ensures { OnOk result (self.new ≡ self.old ++ string_bytes name ∷ []) }
    {
        self.names.insert(name.into_bytes())?;
        Ok(())
    }

    /// None where no node has the name.
    pub fn number(&self, name: &[u8]) -> Option<usize>
        ensures { result ≡ position (bytes_eq name.now) self.now }
    {
        self.names.get_index_of(name)
    }

    /// The name of the node with this number, which is empty where there is none.
    pub fn name(&self, at: u16) -> &[u8]
        ensures { result.now ≡ slice_index_or self.now at [] }
    {
        match self.names.get_index(usize::from(at)) {
            Some(name) => name.as_slice(),
            None => &[],
        }
    }
}
