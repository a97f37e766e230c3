//! The walk over the lines of a record, which judges each as it is read, and keeps none.
ghost use Rattle.std.specs.Prelude.{◌≡◌, ◌+◌, ◌-◌, ◌<◌, ◌^◌, ◌∷◌, [], length, false, true, ◌==◌, IfOk, IfSome};
ghost use Rattle.shift_checker.specs.Clauses.{CellFits, LineFits, Reading, RequestFits, Suits, is_granted, reply_to, state_after};
ghost use Rattle.shift_checker.specs.Clauses.{state_after_entry, turn_of, with_line};
ghost use Rattle.shift_checker.specs.declared.verdict.Verdict.TheVariants.{No, Yes};
ghost use Rattle.shift_checker.specs.declared.verdict.Why.TheVariants as whys;
ghost use Rattle.shift_checker.specs.Carrying.{settled};
ghost use Rattle.shift_checker.specs.Judging.{fails_unless, granted_requests, is_told_rightly, verdict_from};
ghost use Rattle.shift_checker.specs.Lines.{IsWalked, carried_by, halted_by, judged, unmoved};

use crate::replies::{is_granted, same_reply};
use crate::{Verdict, Why};
use cell_base::{Cell, Entry, NoMemory, Request, Told};
use plain_recount::Recount;
use record_text::RecordLine;
use std::alloc::Global;
use std::marker::Model;

/// The parts, how many requests count so far, and the halted request that may count too; in a plan, the number of its line
/// and how many steps are missing. While the steps of a plan are tried, the parts before it are kept.
#[derive(Drop)]
pub struct Walk<'a> {
    recount: Recount<'a>,
    count: u64,
    halted: Option<Request>,
    plan: u32,
    missing: u64,
}

impl<'a> Model for Walk<'a> {
    ghost use Rattle.shift_checker.specs.Lines.{Walked};

    ghost Value = { Walked };

    ghost view = { λ s. record {
      cell = s.recount.cell;
      parts = s.recount.parts;
      kept = s.recount.kept;
      count = s.count;
      halted = s.halted;
      plan = s.plan;
      missing = s.missing;
    } };
}

impl<'a> Walk<'a> {
    /// The empty state of a cell, before the first line.
    pub fn new(alloc: Global, cell: &'a Cell) -> Result<Walk<'a>, NoMemory>
        requires { CellFits cell.now }
        ensures { IfOk result (λ walk. walk ≡ unmoved cell.now) }
    {
        let recount = Recount::new(alloc, cell)?;
        Ok(Walk {
            recount,
            count: 0,
            halted: None,
            plan: 0,
            missing: 0,
        })
    }

    /// Goes on by the line of this number.
    pub fn line(&mut self, number: u32, line: &RecordLine) -> Verdict
        requires fits { LineFits self.old.cell line.now }
        requires walked { (so_far : Reading) × IsWalked number so_far self.old × Suits (turn_of so_far.1) line.now }
        ensures verdict { (so_far : Reading) → IsWalked number so_far self.old → Suits (turn_of so_far.1) line.now
            → result ≡ verdict_from 1 (judged self.old.cell (with_line number so_far.0 so_far.1 line.now)) }
        ensures walked { (so_far : Reading) → IsWalked number so_far self.old → Suits (turn_of so_far.1) line.now
            → result ≡ Yes → IsWalked (number + 1) (with_line number so_far.0 so_far.1 line.now) self.new }
        ensures cell { self.new.cell ≡ self.old.cell }
    {
        match *line {
            RecordLine::Head { after, .. } => self.head(number, after),
            RecordLine::Entry(entry) => self.entry(number, &entry),
            RecordLine::Left(left) => self.left(number, left),
            RecordLine::Plan(steps) => self.plan(number, steps),
            RecordLine::Step(step) => self.step(number, &step),
        }
    }

    /// The halted request counts where the head names one more.
    fn head(&mut self, number: u32, after: u64) -> Verdict
        requires halted { IfSome self.old.halted (RequestFits self.old.cell) }
        requires few { self.old.count + 1 < 2 ^ 64 }
        ensures verdict { result ≡ verdict_from number
            (fails_unless (after == (settled self.old.cell (carried_by self.old) after).count) whys.After ∷ []) }
        ensures state { let begun = settled self.old.cell (carried_by self.old) after in
            self.new ≡ record self.old { parts = begun.parts; count = begun.count; halted = begun.halted } }
    {
        if let Some(request) = self.halted {
            if after == self.count + 1 {
                self.recount.ask(&request);
                self.count += 1;
            }
        }
        self.halted = None;
        verdict(after == self.count, number, Why::After)
    }

    /// The state is then that after the entry.
    fn entry(&mut self, number: u32, entry: &Entry) -> Verdict
        requires fits { RequestFits self.old.cell entry.now.request }
        requires few { self.old.count + 1 < 2 ^ 64 }
        ensures verdict { result ≡ verdict_from number
            (fails_unless (is_told_rightly self.old.cell self.old.parts entry.now.request entry.now.told) whys.Reply ∷ []) }
        ensures state { self.new ≡ record self.old {
          parts = state_after_entry self.old.cell self.old.parts entry.now.request entry.now.told;
          count = self.old.count + length (granted_requests (entry.now ∷ []));
          halted = halted_by self.old.halted entry.now;
        } }
    {
        let right = match entry.told {
            Told::Answered(reply) => {
                if is_granted(reply) {
                    self.count += 1;
                }
                same_reply(self.recount.ask(&entry.request), reply)
            }
            Told::Halted => {
                self.halted = Some(entry.request);
                is_granted(self.recount.decide(&entry.request))
            }
        };
        verdict(right, number, Why::Reply)
    }

    fn left(&self, number: u32, left: u32) -> Verdict
        ensures { result ≡ verdict_from number (fails_unless (left == length self.now.parts) whys.Left ∷ []) }
    {
        verdict(left == self.recount.parts_left(), number, Why::Left)
    }

    /// The steps are tried, and change nothing. A plan of none is right where no part is left.
    fn plan(&mut self, number: u32, steps: u64) -> Verdict
        ensures empty { steps ≡ 0 → result ≡ verdict_from number (fails_unless (length self.old.parts == 0) whys.Parts ∷ []) }
        ensures ended { steps ≡ 0 → result ≡ Yes → carried_by self.new ≡ carried_by self.old }
        ensures begun { 0 < steps → result ≡ Yes }
        ensures state { 0 < steps → self.new ≡ record self.old { kept = self.old.parts; plan = number; missing = steps } }
        ensures cell { self.new.cell ≡ self.old.cell }
    {
        self.recount.keep();
        self.plan = number;
        self.missing = steps;
        if steps == 0 {
            return self.end();
        }
        Verdict::Yes
    }

    fn step(&mut self, number: u32, step: &Request) -> Verdict
        requires fits { RequestFits self.old.cell step.now }
        requires missing { 0 < self.old.missing }
        ensures refused { is_granted (reply_to self.old.cell self.old.parts step.now) ≡ false → result ≡ No number whys.Step }
        ensures more { is_granted (reply_to self.old.cell self.old.parts step.now) ≡ true → 1 < self.old.missing → result ≡ Yes }
        ensures state { is_granted (reply_to self.old.cell self.old.parts step.now) ≡ true → 1 < self.old.missing
            → self.new ≡ record self.old {
              parts = state_after self.old.cell self.old.parts step.now;
              missing = self.old.missing - 1;
            } }
        ensures last { is_granted (reply_to self.old.cell self.old.parts step.now) ≡ true → self.old.missing ≡ 1
            → result ≡ verdict_from self.old.plan
            (fails_unless (length (state_after self.old.cell self.old.parts step.now) == 0) whys.Parts ∷ []) }
        ensures ended { is_granted (reply_to self.old.cell self.old.parts step.now) ≡ true → self.old.missing ≡ 1 → result ≡ Yes
            → carried_by self.new ≡ record (carried_by self.old) { parts = self.old.kept } }
        ensures cell { self.new.cell ≡ self.old.cell }
    {
        if !is_granted(self.recount.ask(step)) {
            return Verdict::No {
                line: number,
                why: Why::Step,
            };
        }
        self.missing -= 1;
        if self.missing == 0 {
            return self.end();
        }
        Verdict::Yes
    }

    /// No step of the plan is missing: no part may be left, and those before the plan are back.
    fn end(&mut self) -> Verdict
        ensures verdict { result ≡ verdict_from self.old.plan (fails_unless (length self.old.parts == 0) whys.Parts ∷ []) }
        ensures state { self.new ≡ record self.old { parts = self.old.kept; kept = self.old.parts } }
    {
        let left = self.recount.parts_left();
        self.recount.go_back();
        verdict(left == 0, self.plan, Why::Parts)
    }
}

/// The verdict on one line.
fn verdict(right: bool, line: u32, why: Why) -> Verdict
    ensures { result ≡ verdict_from line (fails_unless right why ∷ []) }
{
    if right {
        Verdict::Yes
    } else {
        Verdict::No { line, why }
    }
}
