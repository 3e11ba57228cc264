//! A language whose states tell whether an odd number of commands was run (`language`).
use crate::whole_reports::about;
use doc_nodes::NodeAliases;
use language::{Answer, Imports, Language, Made};
use pide_base::{NodeName, Stop};
use report_markup::{PlainText, Report, ReportKind};
use sqlite_items::Items;
use std::alloc::{AllocError, Global};

/// A node begins odd where it is ordered and has imports. A command makes an odd state even and an
/// even one odd, and forks where it has a blob. Its evaluation asks to stop before and behind its
/// work, its fork before.
pub(crate) struct Parity;

impl Language for Parity {
    ghost use Rattle.test_editor.specs.Parity.{parity, tidy};

    type State = bool;

    ghost lang = { parity };

    ghost questions = { record { step = λ source blob state. 2; fork = λ source state. 1 } };

    ghost tidy = { tidy };

    fn start(
        &self,
        _alloc: Global,
        _node: &NodeName,
        imports: &Imports<bool>,
        _aliases: &NodeAliases,
    ) -> Result<bool, AllocError> {
        match imports {
            Imports::Ordered(imports) => Ok(imports.len() > 0),
            Imports::Bad(_) => Ok(false),
        }
    }

    fn step<P: Stop>(
        &self,
        alloc: Global,
        source: &[char],
        blob: Option<&[char]>,
        state: &bool,
        stop: &mut P,
    ) -> Answer<Made<bool>> {
        if stop.asked() {
            return Answer::Stopped;
        }
        let forks = blob.is_some();
        let Ok(reports) = about(alloc, ReportKind::Command, source, PlainText::empty()) else {
            return Answer::NoMemory;
        };
        if stop.asked() {
            return Answer::Stopped;
        }
        Answer::Given(Made {
            state: !*state,
            reports,
            forks,
        })
    }

    fn fork<P: Stop>(
        &self,
        alloc: Global,
        source: &[char],
        state: &bool,
        stop: &mut P,
    ) -> Answer<Items<Report>> {
        if stop.asked() {
            return Answer::Stopped;
        }
        let kind = if *state {
            ReportKind::Proved
        } else {
            ReportKind::Ref
        };
        match about(alloc, kind, source, PlainText::empty()) {
            Ok(reports) => Answer::Given(reports),
            Err(_) => Answer::NoMemory,
        }
    }

    fn print(
        &self,
        alloc: Global,
        source: &[char],
        state: &bool,
    ) -> Result<Items<Report>, AllocError> {
        let kind = if *state {
            ReportKind::State
        } else {
            ReportKind::Error
        };
        about(alloc, kind, source, PlainText::empty())
    }
}
