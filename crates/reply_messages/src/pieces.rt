//! Ids, rows and nodes as elements.

use crate::list::Piece;
use crate::pair::{take_listed, take_word};
use crate::taken::Taken;
use crate::told::{CommandRow, NodeRows};
use pide_base::{CommandId, ExecId, NodeName, VersionId};
use std::alloc::{AllocError, Global};

impl Piece for VersionId {
    ghost use Rattle.std.specs.Prelude.{[], ◌∷◌};
    ghost use Rattle.yxml.specs.Spelling.{yxml};
    ghost use Rattle.xml_codec.specs.Data.{list_body};
    ghost use Rattle.message_values.specs.ShapeBodies.{number_body};
    ghost use Rattle.pide_base.specs.Ids.{IsId};

    ghost spelling = { λ version. yxml (list_body (number_body version ∷ [])) };

    ghost fits = { IsId };

    fn take(alloc: Global, text: &[u8]) -> Result<Option<Taken<VersionId>>, AllocError> {
        take_word(alloc, text)
    }
}

impl Piece for ExecId {
    ghost use Rattle.std.specs.Prelude.{[], ◌∷◌};
    ghost use Rattle.yxml.specs.Spelling.{yxml};
    ghost use Rattle.xml_codec.specs.Data.{list_body};
    ghost use Rattle.message_values.specs.ShapeBodies.{number_body};
    ghost use Rattle.pide_base.specs.Ids.{IsId};

    ghost spelling = { λ exec. yxml (list_body (number_body exec ∷ [])) };

    ghost fits = { IsId };

    fn take(alloc: Global, text: &[u8]) -> Result<Option<Taken<ExecId>>, AllocError> {
        take_word(alloc, text)
    }
}

impl Piece for CommandRow {
    ghost use Rattle.std.specs.Prelude.{[], ◌∷◌};
    ghost use Rattle.yxml.specs.Spelling.{yxml};
    ghost use Rattle.xml_codec.specs.Data.{list_body};
    ghost use Rattle.reply_messages.specs.Bodies.{row_body};
    ghost use Rattle.reply_messages.specs.Fits.{FitsRow};

    ghost spelling = { λ row. yxml (list_body (row_body row ∷ [])) };

    ghost fits = { FitsRow };

    fn take(alloc: Global, text: &[u8]) -> Result<Option<Taken<CommandRow>>, AllocError> {
        let Some(taken) = take_listed::<CommandId, ExecId>(alloc, text)? else {
            return Ok(None);
        };
        let Taken { value, length } = taken;
        let value = CommandRow {
            command: value.of,
            executions: value.items,
        };
        Ok(Some(Taken { value, length }))
    }
}

impl Piece for NodeRows {
    ghost use Rattle.std.specs.Prelude.{[], ◌∷◌};
    ghost use Rattle.yxml.specs.Spelling.{yxml};
    ghost use Rattle.xml_codec.specs.Data.{list_body};
    ghost use Rattle.reply_messages.specs.Bodies.{node_body};
    ghost use Rattle.reply_messages.specs.Fits.{FitsNode};

    ghost spelling = { λ node. yxml (list_body (node_body node ∷ [])) };

    ghost fits = { FitsNode };

    fn take(alloc: Global, text: &[u8]) -> Result<Option<Taken<NodeRows>>, AllocError> {
        let Some(taken) = take_listed::<NodeName, CommandRow>(alloc, text)? else {
            return Ok(None);
        };
        let Taken { value, length } = taken;
        let value = NodeRows {
            node: value.of,
            rows: value.items,
        };
        Ok(Some(Taken { value, length }))
    }
}
