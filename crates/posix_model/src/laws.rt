//! Laws of every step and history, for the crates above. None of these functions does anything.

ghost use Rattle.posix_model.specs.Proved.Sound.{CallsAreSound, ActsAreSound};
ghost use Rattle.posix_model.specs.Proved.Lengths.{StepIsShort};
ghost use Rattle.posix_model.specs.Proved.Released.{SweptIsSettled, SettledStays, SweepReleases, NamesRelease, SweepCounts};
ghost use Rattle.posix_model.specs.Proved.Drops.{ExitCloses, ClosedIsBare, CloseThenSet};
ghost use Rattle.posix_model.specs.Proved.Laws.{StepRaisesNumbers, StepKeepsWhole, HistoryIsWhole, HistoryRaisesNumbers, SweepSettles, StepSettles, HistorySettles, HistoryKeepsExactly, SweepLeaves, StepTellsProcesses, StepPlansProcesses, ReserveWasKept};

/// Whatever an act comes to can be applied, within all limits. A refusal changes nothing (for a resume see
/// `resume_breaks_alone`). An act moves no offset but that of its own descriptor, changes no file, name or pipe that it
/// may not change, and takes no more bytes from its process than the process gives.
pub fn acts_are_sound()
    ensures { ActsAreSound }
{}

/// The law of `acts_are_sound` for each call, even where its process is not there.
pub fn calls_are_sound()
    ensures { CallsAreSound }
{}

/// No number is used again, and nothing refers to what is gone.
pub fn numbers_rise()
    ensures step { StepRaisesNumbers }
    ensures step_whole { StepKeepsWhole }
    ensures history_whole { HistoryIsWhole }
    ensures history { HistoryRaisesNumbers }
{}

/// Sweeping changes nothing in the world after a step, nor in any world of a history.
pub fn sweep_settles()
    ensures sweep { SweepSettles }
    ensures step { StepSettles }
    ensures history { HistorySettles }
{}

/// A sweep changes nothing but what it takes, and takes just what nothing refers to.
pub fn sweep_leaves_wanted()
    ensures { SweepLeaves }
{}

/// A world is its own sweep exactly where it is settled. After a change of the references to one description, the sweep
/// takes it and what it alone held, or nothing; after a change of the names of one file, that file or nothing; and after one
/// that leaves each file as many names, what it would have taken before.
pub fn sweep_releases()
    ensures settled { SweptIsSettled }
    ensures stays { SettledStays }
    ensures releases { SweepReleases }
    ensures names { NamesRelease }
    ensures counts { SweepCounts }
{}

/// In a history a file is there exactly while it has a name or a live description holds it, a pipe while an end of it is
/// open, and a description while a descriptor refers to it (page of close).
pub fn file_kept_exactly()
    ensures { HistoryKeepsExactly }
{
    numbers_rise();
    sweep_settles();
    sweep_releases();
}

/// A process that goes closes its descriptors in turn; and a descriptor that is set over an open one closes that first.
pub fn exits_close()
    ensures exit { ExitCloses }
    ensures bare { ClosedIsBare }
    ensures set { CloseThenSet }
{}

/// No record is longer than a record may be where it is sent, as long as no field of its act is longer than a call may
/// give it.
pub fn records_are_short()
    ensures { StepIsShort }
{}

/// How many processes a step adds and ends, by its act and outcome, and as it is known before the step.
pub fn processes_are_counted()
    ensures told { StepTellsProcesses }
    ensures planned { StepPlansProcesses }
{}

/// Where a history leaves records enough for the exits and the closing of its run, each front of it did.
pub fn reserve_was_kept()
    ensures { ReserveWasKept }
{}
