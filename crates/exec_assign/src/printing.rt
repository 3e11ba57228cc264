//! The prints of a node.
ghost use Rattle.std.specs.Prelude.{◌≡◌, ◌<◌, ◌≤◌, ◌∷◌, ◌++◌, [], length, drop, Err, IfOk, OnOk};
ghost use Rattle.pide_base.specs.Ids.{id_end};
ghost use Rattle.exec_rules.specs.Rows.{live_print, live_prints, first_print, print_of, takes_print, number_behind, with_prints, behind_prints};
ghost use Rattle.exec_assign.specs.declared.fault.AssignFault.TheVariants.{Limit};

use crate::cancelled::Cancelled;
use crate::evaluating::numbered;
use crate::fault::AssignFault;
use crate::update::Update;
use doc_nodes::Entry;
use exec_rules::Row;
use pide_base::ExecId;
use sqlite_items::Items;
use std::alloc::{AllocError, Global};

/// Rows with their prints, and the next number behind these.
#[derive(Drop)]
pub(crate) struct Printed {
    pub(crate) rows: Items<Row>,
    pub(crate) next: u64,
}

impl<'a, C: Cancelled> Update<'a, C> {
    /// The prints that can be kept: those of the first rows, where they are not cancelled.
    pub(crate) fn live_prints(
        &self,
        alloc: Global,
        rows: &[Row],
        kept: usize,
    ) -> Result<Vec<Option<ExecId>>, AllocError>
        requires { kept ≤ length rows.now }
        ensures { IfOk result (λ live. live.items
            ≡ live_prints self.now.cancelled rows.now kept) }
    {
        let mut live = Vec::new(alloc);
        'rows: for row in &rows[..kept] {
            live.push(self.live_print(row.print))?;
        }
        Ok(live)
    }

    fn live_print(&self, print: Option<ExecId>) -> Option<ExecId>
        ensures { result ≡ live_print self.now.cancelled print }
    {
        match print {
            Some(print) if !self.cancelled.is_cancelled(print) => Some(print),
            _ => None,
        }
    }
}

/// The print that the command at the place can keep.
pub(crate) fn live_at(live: &[Option<ExecId>], place: usize) -> Option<ExecId>
    ensures { result ≡ first_print (drop place live.now) }
{
    match live.get(place) {
        Some(print) => *print,
        None => None,
    }
}

/// Whether a command takes the next number for its print.
pub(crate) fn takes_print(entry: &Entry, live: &Option<ExecId>) -> bool
    ensures { result ≡ takes_print entry.now live.now }
{
    entry.visible && live.is_none()
}

/// The print of a command: where it is visible, the one that it can keep, or the next.
fn print_of(entry: &Entry, live: &Option<ExecId>, next: u64) -> Result<Option<ExecId>, AssignFault>
    requires first { 1 ≤ next }
    requires next { next ≤ id_end }
    ensures ok { IfOk result (λ print. print ≡ print_of entry.now live.now next) }
    ensures within { IfOk result (λ _. number_behind entry.now live.now next ≤ id_end) }
    ensures limit { result ≡ Err Limit → id_end < number_behind entry.now live.now next }
{
    if !entry.visible {
        return Ok(None);
    }
    match live {
        Some(print) => Ok(Some(*print)),
        None => Ok(Some(numbered(next)?)),
    }
}

/// The next number behind the print of a command.
fn behind(entry: &Entry, live: &Option<ExecId>, next: u64) -> u64
    requires { next ≤ id_end }
    ensures { result ≡ number_behind entry.now live.now next }
{
    if takes_print(entry, live) {
        next + 1
    } else {
        next
    }
}

fn add_row(
    rows: &mut Items<Row>,
    evaluation: ExecId,
    print: Option<ExecId>,
) -> Result<(), AllocError>
    ensures { OnOk result (rows.new
        ≡ rows.old ++ record { evaluation = evaluation; print = print } ∷ []) }
{
    rows.push(Row { evaluation, print })
}

/// The rows of commands with these evaluations, given the prints that can be kept.
pub(crate) fn with_prints(
    alloc: Global,
    entries: &[Entry],
    evaluations: &[ExecId],
    live: &[Option<ExecId>],
    next: u64,
) -> Result<Printed, AssignFault>
    requires long { length evaluations.now ≤ length entries.now }
    requires first { 1 ≤ next }
    requires next { next ≤ id_end }
    ensures rows { IfOk result (λ printed. printed.rows
        ≡ with_prints entries.now evaluations.now live.now next) }
    ensures next { IfOk result (λ printed. printed.next
        ≡ behind_prints entries.now evaluations.now live.now next) }
    ensures within { IfOk result (λ printed. printed.next ≤ id_end) }
    ensures limit { result ≡ Err Limit
        → id_end < behind_prints entries.now evaluations.now live.now next }
{
    let mut rows = Items::new(alloc);
    let mut number = next;
    'rows: for place in 0..evaluations.len() {
        let entry = &entries[place];
        let kept = live_at(live, place);
        let print = print_of(entry, &kept, number)?;
        add_row(&mut rows, evaluations[place], print)?;
        number = behind(entry, &kept, number);
    }
    Ok(Printed { rows, next: number })
}
