// A settings file that is accepted, with what a call reads from it.
#![tactic(auto)]

ghost use Rattle.std.specs.Prelude.{◌≡◌, Some, ◌≤◌, length, drop};
ghost use Rattle.panel.specs.Names.{panel_code};
ghost use Rattle.settings.specs.Facts.{kind_of, EndsAt, Found};
ghost use Rattle.settings.specs.Plans.{PlanOf};
ghost use Rattle.settings.specs.Settings.{write, step_of, steps_of};

use crate::{Kind, NextWrite, Plan, Section};

// The plan is that of the file.
#[derive(Clone, Copy)]
pub struct AcceptedFile<'a> {
    pub file: &'a [u8],
    pub plan: Plan,
    pub ghost its: { PlanOf file.now plan },
}

impl<'a> AcceptedFile<'a> {
    // The step at a place of the file, if there is one.
    pub fn step_at(self, at: usize) -> Option<Kind>
        requires { at ≤ length self.file.now }
        ensures { result ≡ kind_of (step_of (panel_code self.entry.plan.panel) (drop at self.entry.file.now)) }
    {
        crate::step_at(self.file, at, self.plan.panel)
    }

    // The data of a write of a register that stands at index `at` of the file.
    pub fn data_of(self, at: usize, register: u8) -> &'a [u8]
        requires { (kind_of (step_of (panel_code self.plan.panel) (drop at self.file.now)) ≡ Some (Kind.Write register)) × (at ≤ length self.file.now) }
        ensures { step_of (panel_code self.entry.plan.panel) (drop at self.entry.file.now) ≡ write register result.now }
    {
        let start = at + 2;
        let end = start + panel::data_length(register);
        &self.file[start..end]
    }

    // The index after n steps, from index `at` on, or that of the first bytes among them that are no step.
    pub fn steps_end(self, at: usize, n: usize) -> usize
        requires { at ≤ length self.file.now }
        ensures { EndsAt (panel_code self.entry.plan.panel) n at self.entry.file.now result }
    {
        match crate::pass_steps(self.file, self.plan.panel, at, n) {
            Ok(passed) => passed.end,
            Err(stuck) => stuck,
        }
    }

    // The next write from step k of a section on.
    pub fn next_write_from(self, section: Section, k: usize) -> NextWrite
        requires { (section.at ≤ length self.file.now) × (section.count ≤ 255) × (k ≤ section.count) }
        ensures { Found (panel_code self.entry.plan.panel) self.entry.file.now
            (drop k (steps_of (panel_code self.entry.plan.panel) section.count (drop section.at self.entry.file.now)))
            result }
    {
        let at = self.steps_end(section.at, k);
        crate::next_write(self.file, self.plan.panel, at, section.count - k)
    }
}
