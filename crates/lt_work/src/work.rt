//! The work of a store between its calls.

ghost use Rattle.std.specs.Prelude.{◌≡◌, true, IfOk, is_some, map};
ghost use Rattle.std.specs.Option.{ForSome, option_map};
ghost use Rattle.lt_format.specs.Changes as format;
ghost use Rattle.lt_node.specs.Changing.{change_of as change_shown, child_of};
ghost use Rattle.lt_compact.specs.Extents.{filters_in};
ghost use Rattle.lt_work.specs.Committing.{HasReady, change_in, cleared_of, committed_work, slackless_after};
ghost use Rattle.lt_work.specs.Work.{at_rest, flushed_work, reserved_by};

use lt_bloom::FilterPage;
use lt_compact::Job;
use lt_node::{Change, ChildChange};
use lt_pace::Marks;
use lt_page::NoMemory;
use std::alloc::Global;
use std::marker::Model;

/// The job that is in flight, if one is, and what is remembered of nodes. Contracts see a `WorkView`.
#[derive(Drop)]
pub struct Work {
    pub(super) job: Option<Job>,
    /// Nodes whose whole pile needs more extents than are free, until the next commit of the manifest.
    pub(super) passed_over: Marks,
    /// Last-level nodes that are known to have no slack, until tables are dealt to them.
    pub(super) without_slack: Marks,
}

impl Model for Work {
    ghost use Rattle.lt_work.specs.Work.{WorkView};

    ghost Value = { WorkView };

    ghost view = { λ work. record {
      job = work.job;
      passed_over = work.passed_over;
      without_slack = work.without_slack;
    } };
}

impl Work {
    /// No job is in flight, and no node is marked. All memory that is kept is taken here.
    pub fn new(alloc: Global) -> Result<Work, NoMemory>
        ensures { IfOk result (λ work. work ≡ at_rest) }
    {
        Ok(Work {
            job: None,
            passed_over: Marks::new(alloc)?,
            without_slack: Marks::new(alloc)?,
        })
    }

    /// The extents that the job in flight has reserved.
    pub fn reserved_numbers(&self) -> &[u32]
        ensures { result.now ≡ reserved_by self.now }
    {
        match &self.job {
            Some(job) => job.reserved_numbers(),
            None => &[],
        }
    }

    /// Notes that a flush was committed.
    pub fn note_flush(&mut self)
        ensures { self.new ≡ flushed_work self.old }
    {
        self.passed_over.clear_all();
    }

    /// The change of the job in flight. `Some` exactly where it is ready.
    pub fn change(&self) -> Option<&Change>
        ensures { option_map (λ c. change_shown c.now) result ≡ change_in self.now }
    {
        self.job.as_ref()?.change()
    }

    /// Notes that the change of the job in flight was committed, and answers the filters of the tables that it
    /// built for inner children, in the order in which the change names them. Takes no memory.
    pub fn note_commit(&mut self) -> Vec<FilterPage>
        requires { is_some (change_in self.old) ≡ true }
        ensures work { (change : format.Change) → HasReady self.old change
            → self.new ≡ committed_work change self.old }
        ensures filters { ForSome self.old.job (λ j. result.items ≡ filters_in j j.stage) }
    {
        let Some(job) = self.job.take() else {
            unreachable!()
        };
        if let Some(change) = job.change() {
            note(&mut self.without_slack, change);
        }
        self.passed_over.clear_all();
        job.into_filters()
    }
}

/// Notes in the marks of the nodes without slack what a change makes of them.
fn note(without_slack: &mut Marks, change: &Change)
    ensures { without_slack.new ≡ slackless_after (change_shown change.now) without_slack.old }
{
    match change {
        Change::Flush { .. } => {}
        Change::Deal { children, .. } => clear(without_slack, children.list()),
        Change::Rewrite { node, .. } => without_slack.mark(*node),
    }
}

/// Takes the marks off the children that get tables.
fn clear(marks: &mut Marks, children: &[ChildChange])
    ensures { marks.new ≡ cleared_of marks.old (map child_of children.now) }
{
    for child in children {
        marks.clear(child.node);
    }
}
