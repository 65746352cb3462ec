//! Where jobs come from.
ghost use Rattle.std.specs.Prelude.{◌≡◌, List, option_map};
ghost use Rattle.global_defs.specs.Jobs as defs;
ghost use Rattle.global_defs.specs.Serial.{next_job, without_next};
ghost use Rattle.gvn_model.specs.Jobs.{job_value};

use gvn_model::{Job, Jobs};

/// Jobs by the updaters that ask for them.
pub trait JobSource {
    /// The jobs of each updater that weren't taken yet, those of updater `u`, from 1, at place `u - 1`.
    ghost jobs: { Self → List (List defs.Job) };

    /// Takes the first job of this updater, from 1, if it has one. A 0 is taken as 1.
    fn take_next(&mut self, updater: u8) -> Option<Job>
        ensures job { option_map job_value result ≡ next_job updater (jobs self.old) }
        ensures left { jobs self.new ≡ without_next updater (jobs self.old) };
}

impl JobSource for Jobs {
    ghost jobs = { λ all. all };

    fn take_next(&mut self, updater: u8) -> Option<Job> {
        Jobs::take_next(self, updater)
    }
}
