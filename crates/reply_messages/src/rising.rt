//! Ids that rise.
ghost use Rattle.std.specs.Prelude.{◌↔◌, IsTrue};
ghost use Rattle.reply_messages.specs.Forms.{IsRising};

use pide_base::{ExecId, VersionId};

/// Whether each version is above the one before it.
pub(crate) fn versions_rise(versions: &[VersionId]) -> bool
    ensures { IsTrue result ↔ IsRising versions.now }
{
    let mut rest = versions;
    'versions: while let [first, more @ ..] = rest {
        if let [second, ..] = more {
            if second.number() <= first.number() {
                return false;
            }
        }
        rest = more;
    }
    true
}

/// Whether each execution is above the one before it.
pub(crate) fn execs_rise(execs: &[ExecId]) -> bool
    ensures { IsTrue result ↔ IsRising execs.now }
{
    let mut rest = execs;
    'execs: while let [first, more @ ..] = rest {
        if let [second, ..] = more {
            if second.number() <= first.number() {
                return false;
            }
        }
        rest = more;
    }
    true
}
