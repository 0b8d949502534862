//! S14.5, S14.8: what holds of every import, as the contracts of functions that do nothing.
ghost use Rattle.importer.specs.Laws.{FiguresInOrder, ReaderTakes, TimesKeepBudgets, MasksKept, SameTask};

/// S14.8: the figures of every graph are in order, the times keep the budgets, and the reader refuses the record for
/// no other cause than 6.
#[tactic(auto, using(crate::proofs::Orders::figures_in_order, crate::proofs::Budgets::times_keep_budgets, crate::proofs::Readers::reader_takes))]
pub fn imports()
    ensures ordered { FiguresInOrder }
    ensures kept { TimesKeepBudgets }
    ensures taken { ReaderTakes }
{}

/// S14.5: how often a predecessor is named, in which order, and whether entry 0 is, changes no task.
#[tactic(auto, using(crate::proofs::Same::masks_kept, crate::proofs::Same::same_task))]
pub fn alike()
    ensures masks { MasksKept }
    ensures tasks { SameTask }
{}
