//! A run that was opened.

use crate::crew::Crew;
use crate::parts::Parts;
use crate::plan::RunPlan;
use crate::shared::Shared;
use kmem_text::Script;
use run_print::Page;
use std::marker::Model;

/// A run that was opened and hasn't begun. It has all the memory that it will need.
#[derive(Drop)]
pub struct OpenRun {
    pub(crate) plan: RunPlan,
    pub(crate) script: Script,
    pub(crate) shared: Shared,
    pub(crate) crew: Crew,
    pub(crate) parts: Parts,
    pub(crate) page: Page,
}

impl Model for OpenRun {
    ghost use Rattle.kmem_text.specs.Scripts.{plain};
    ghost use Rattle.run_engine.specs.Opened.{IsOpen, RunView};

    ghost Value = { RunView };

    ghost view = { λ r. record { plan = r.plan; script = plain r.script } };

    ghost invariant = { λ r. IsOpen r.plan (plain r.script) r.shared r.crew r.parts r.page };
}
