//! What jobs take up from imports.
ghost use Rattle.std.specs.Prelude.{◌≡◌, Some, IfOk, zip};
ghost use Rattle.std.specs.Option.{IsSome};
ghost use Rattle.doc_nodes.specs.Aliases.{no_aliases};
ghost use Rattle.doc_nodes.specs.Imports.{place_of};
ghost use Rattle.core_rules.specs.Settings.{bare_start};
ghost use Rattle.core_jobs.specs.Inputs.{known_state, found_state, found_import, all_imported, found_imports};

use crate::called::node_called;
use crate::sources::Sources;
use core_rules::exec_rules_below::{Head, Key, Last};
use core_rules::language_below::{Imported, Imports, Language};
use doc_nodes::{Aliases, NodeAliases, Shared};
use joined_results::both;
use pide_base::NodeName;
use sqlite_items::Items;
use std::alloc::{AllocError, Global};

impl<'a, L: Language> Sources<'a, L> {
    /// What a node has from its imports.
    pub(crate) fn imports_of(&self, head: &Head) -> Result<Imports<L::State>, AllocError>
        requires { IsSome (found_imports L.lang self.now.nodes.now
            (known_state self.now.execs.now.rows) head.now.imports head.now.key) }
        ensures { IfOk result (λ imports. found_imports L.lang self.now.nodes.now
            (known_state self.now.execs.now.rows) head.now.imports head.now.key ≡ Some imports) }
    {
        match head.key.get() {
            Key::BadImport(name) => Ok(Imports::Bad(Items::from_slice(
                self.alloc,
                name.as_slice(),
            )?)),
            Key::Lasts(lasts) => {
                let names = head.imports.get().as_slice();
                Ok(Imports::Ordered(self.all_imported(names, lasts.as_slice())?))
            }
        }
    }

    /// The imports with their states, in the header's order.
    fn all_imported(
        &self,
        names: &[Items<char>],
        lasts: &[Last],
    ) -> Result<Items<Imported<L::State>>, AllocError>
        requires { IsSome (all_imported L.lang self.now.nodes.now
            (known_state self.now.execs.now.rows) (zip names.now lasts.now)) }
        ensures { IfOk result (λ all. all_imported L.lang self.now.nodes.now
            (known_state self.now.execs.now.rows) (zip names.now lasts.now) ≡ Some all) }
    {
        let mut all = Items::new(self.alloc);
        let mut more = names;
        let mut rest = lasts;
        'imports: while let [name, more_names @ ..] = more {
            let [last, more_lasts @ ..] = rest else {
                return Ok(all);
            };
            all.push(self.imported(name, *last)?)?;
            more = more_names;
            rest = more_lasts;
        }
        Ok(all)
    }

    /// An import with the state that it hands on.
    fn imported(&self, name: &Items<char>, last: Last) -> Result<Imported<L::State>, AllocError>
        requires { IsSome (found_import L.lang self.now.nodes.now
            (known_state self.now.execs.now.rows) (name.now, last)) }
        ensures { IfOk result (λ one. found_import L.lang self.now.nodes.now
            (known_state self.now.execs.now.rows) (name.now, last) ≡ Some one) }
    {
        let state = self.handed_on(name.as_slice(), last);
        let (name, state) = both(Items::from_slice(self.alloc, name.as_slice()), state)?;
        Ok(Imported { name, state })
    }

    /// The state that an import hands on.
    fn handed_on(&self, name: &[char], last: Last) -> Result<Shared<L::State>, AllocError>
        requires { IsSome (found_state L.lang self.now.nodes.now
            (known_state self.now.execs.now.rows) name.now last) }
        ensures { IfOk result (λ state. found_state L.lang self.now.nodes.now
            (known_state self.now.execs.now.rows) name.now last ≡ Some state) }
    {
        match last {
            Last::Empty => self.bare_start(name),
            Last::Open => unreachable!(),
            Last::Made(exec) => self.state_of(exec),
        }
    }

    /// How one of the nodes begins that has no imports and no aliases.
    fn bare_start(&self, name: &[char]) -> Result<Shared<L::State>, AllocError>
        requires { IsSome (place_of self.now.nodes.now name.now) }
        ensures { IfOk result (λ state. state ≡ bare_start L.lang name.now) }
    {
        let Some(node) = node_called(self.nodes, name) else {
            unreachable!()
        };
        let state = self.begun(node)?;
        Shared::new(self.alloc, state).map_err(|_| AllocError)
    }

    /// The state in which a node begins that has no imports and no aliases.
    fn begun(&self, node: &NodeName) -> Result<L::State, AllocError>
        ensures { IfOk result (λ state. state ≡ bare_start L.lang node.now) }
    {
        let aliases = no_aliases(self.alloc)?;
        let imports = Imports::Ordered(Items::new(self.alloc));
        let state = self.lang.start(self.alloc, node, &imports, &aliases);
        drop(imports);
        drop(aliases);
        state
    }
}

fn no_aliases(alloc: Global) -> Result<NodeAliases, AllocError>
    ensures { IfOk result (λ aliases. aliases ≡ no_aliases) }
{
    match Shared::new(alloc, Aliases::new(alloc)) {
        Ok(pairs) => Ok(NodeAliases { pairs, bad: None }),
        Err(_) => Err(AllocError),
    }
}
