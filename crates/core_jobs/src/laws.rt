//! What holds of jobs.
ghost use Rattle.std.specs.Prelude.{List};
ghost use Rattle.core_rules.specs.exec_rules_below.declared.home.Home.{Home};
ghost use Rattle.core_jobs.specs.Jobs.{JobContent};
ghost use Rattle.core_jobs.specs.Runs.{done_by};
ghost use Rattle.core_jobs.specs.Fits.{IsJobOf, IsDoneOf};
ghost use Rattle.core_jobs.specs.Worked.{AFirstCommand, AreTheirJobs};

use core_rules::language_below::Language;

/// Where a job works on what its part's execution works on, the language's answer to it is what
/// comes of the part.
pub fn job_law<L: Language>()
    ensures { (homes : List Home) (job : JobContent L.State) → IsJobOf L.lang homes job
        → IsDoneOf L.lang homes (done_by L.lang job) }
{}

/// What comes of jobs of a small language, computed.
pub fn worked_examples()
    ensures first { AFirstCommand }
    ensures theirs { AreTheirJobs }
{}
