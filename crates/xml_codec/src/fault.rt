ghost use Rattle.std.specs.Prelude.{◌≡◌, ◌∷◌, [], IfOk};

use sqlite_items::Items;
use std::alloc::{AllocError, Global};

/// Why a body encodes no value of a shape.
#[derive(Debug, Drop)]
pub enum DataFault {
    /// The first place whose shape is wrong: the numbers of the children, from 0, that lead to it.
    /// A wrong number of children is a fault of their body itself.
    Wrong { path: Items<u64> },
    /// Memory ran out, which says nothing of the body.
    NoMemory,
}

impl From<AllocError> for DataFault {
    ghost use Rattle.xml_codec.specs.declared.fault.DataFault.TheVariants.{NoMemory};
    ghost use Rattle.std.specs.Prelude.{◌≡◌};

    ghost from_gives = { λ _ fault. fault ≡ NoMemory };

    fn from(_refused: AllocError) -> DataFault {
        DataFault::NoMemory
    }
}

impl DataFault {
    ghost use Rattle.xml_codec.specs.Faults.{IsBelow};

    /// The fault of a body itself.
    pub(crate) fn here(alloc: Global) -> DataFault
        ensures { result ≡ DataFault.Wrong [] }
    {
        DataFault::Wrong {
            path: Items::new(alloc),
        }
    }

    /// The fault of one child of a body.
    pub(crate) fn at_child(alloc: Global, child: u64) -> DataFault
        ensures { IsBelow child (DataFault.Wrong []) result }
    {
        DataFault::here(alloc).below(alloc, child)
    }

    /// The fault, where its body is what stands in this child of another body. Where there is no
    /// memory for a longer path, the answer is `NoMemory`.
    pub fn below(self, alloc: Global, child: u64) -> DataFault
        ensures { IsBelow child self result }
    {
        match self {
            DataFault::Wrong { path } => match longer_path(alloc, child, path) {
                Ok(path) => DataFault::Wrong { path },
                Err(_) => DataFault::NoMemory,
            },
            DataFault::NoMemory => DataFault::NoMemory,
        }
    }
}

fn longer_path(alloc: Global, child: u64, path: Items<u64>) -> Result<Items<u64>, AllocError>
    ensures { IfOk result (λ longer. longer ≡ child ∷ path) }
{
    let mut longer = Items::new(alloc);
    longer.push(child)?;
    longer.append(path)?;
    Ok(longer)
}
