//! `why CELL JOURNAL STEP`: what a step would be told after the grants of the journal, and which jobs stand in its way.
ghost use Rattle.std.specs.Prelude.{◌≡◌, ◌≤◌, length, map, IfOk, IfErr};
ghost use Rattle.record_text.specs.Fitting.{ToldFits};
ghost use Rattle.cell_walks.specs.Clauses.{Ends, IsNotOpened, IsOnlyRead, IsTaken, disk_seen, files_seen, observed, sink_seen};
ghost use Rattle.cell_walks.specs.declared.status.Status.TheVariants.{Done};
ghost use Rattle.cell_walks.specs.declared.early_end.EarlyEnd.TheVariants.{WantOfMemory};
ghost use Rattle.cell_texts.specs.Clauses.{Answered, CellFits, MAX_CELL_BYTES, RequestFits, job_line, known};
ghost use Rattle.journal_texts.specs.Clauses.{to_read};
ghost use Rattle.printer.specs.Printing.{Prints};
ghost use Rattle.cell_commands.specs.Why.{IsAnswerAfter, IsAnswerOf, answer_lines, why};

use admission_core::Core;
use cell_base::{JobId, List, Reply, Request};
use cell_driver::{Command, drive};
use cell_texts::{Answered, CellFile, CommandEnd, Made, at_step_fault, job_line};
use cell_walks::{EarlyEnd, Status};
use journal_texts::read_journal;
use outside_io::{Disk, Files, Sink};
use printer::Printer;
use record_text::reply_line;
use refusal_reason::explain;
use refusal_reason::laws::refusal_is_present;
use std::alloc::Global;
use step_text::read_step;

/// Runs `why CELL JOURNAL STEP`.
pub fn run_why<F: Files, K: Sink, D: Disk>(
    alloc: Global,
    files: &mut F,
    out: &mut K,
    cell: &str,
    step: &str,
    disk: D,
) -> CommandEnd<D>
    ensures { Ends (observed (files_seen F.Files files.old files.new) (disk_seen D.Disk disk result.disk))
        (sink_seen K.Sink out.old out.new) (why cell.now step.now) result.status }
{
    drive(&Why { step }, alloc, files, out, cell, disk)
}

/// The command `why`, with the step that is asked about.
#[derive(Drop)]
pub struct Why<'a> {
    pub step: &'a str,
}

/// What a request would be told by a core, and the jobs that stand in its way.
#[derive(Drop)]
pub struct Answer {
    core: Core,
    reply: Reply,
    jobs: List<JobId>,
}

impl<'a> Command for Why<'a> {
    ghost use Rattle.cell_walks.specs.Outcomes.{done};
    ghost use Rattle.cell_commands.specs.Why.{why_step};

    type Answer = Answer;

    ghost onward = { λ why. why_step why.step.now };

    ghost outcome = { λ answer. done (answer_lines answer.core.cell answer.reply answer.jobs) };

    ghost is_whole = { λ answer. ToldFits answer.core.cell (Answered answer.reply) };

    ghost has_no_journal = { λ _. ⊥ };

    fn answer<F: Files, D: Disk>(
        &self,
        alloc: Global,
        held: CellFile,
        _files: &mut F,
        disk: D,
    ) -> Answered<Answer, D> {
        match read_step(&held.cell, self.step.as_bytes()) {
            Ok(request) => answer_of_journal(alloc, held, &request, disk),
            Err(fault) => Made::ended(at_step_fault(fault), disk),
        }
    }

    fn print<K: Sink>(answer: Answer, out: &mut Printer<K>) -> Status
        requires { ToldFits answer.core.cell (Answered answer.reply) }
        ensures printed { Prints K.Sink out.old out.new (answer_lines answer.core.cell answer.reply answer.jobs) }
        ensures status { result ≡ Done }
        ensures taken { IsTaken result }
    {
        print_answer(out, &answer);
        Status::Done
    }
}

// The answer to a request of a cell that was read.
fn answer_of_journal<D: Disk>(
    alloc: Global,
    held: CellFile,
    request: &Request,
    disk: D,
) -> Answered<Answer, D>
    requires fits { CellFits held.cell }
    requires short { length held.text.items ≤ MAX_CELL_BYTES }
    requires request { RequestFits held.cell request.now }
    ensures answer { IfOk result.made (IsAnswerAfter (disk_seen D.Disk disk result.disk) (to_read (known held)) request.now) }
    ensures fits { IfOk result.made (λ answer. ToldFits answer.core.cell (Answered answer.reply)) }
    ensures ended { IfErr result.made (IsNotOpened (disk_seen D.Disk disk result.disk) (to_read (known held))) }
    ensures only_read { IsOnlyRead (disk_seen D.Disk disk result.disk) }
{
    let Made { made, disk } = read_journal(alloc, held, disk);
    let made = match made {
        Ok(after) => answer_to(alloc, after.core, request),
        Err(end) => Err(end),
    };
    Made { made, disk }
}

// Decides a request, and finds the jobs in its way.
fn answer_to(alloc: Global, core: Core, request: &Request) -> Result<Answer, EarlyEnd>
    requires { RequestFits core.cell request.now }
    ensures answer { IfOk result (IsAnswerOf core request.now) }
    ensures fits { IfOk result (λ answer. ToldFits answer.core.cell (Answered answer.reply)) }
    ensures starved { IfErr result (λ end. end ≡ WantOfMemory) }
{
    let reply = core.decide(request);
    let jobs = match &reply {
        Reply::Granted => List::new(alloc),
        Reply::Refused(why) => {
            refusal_is_present(&core, request, why);
            match explain(alloc, &core, why) {
                Ok(jobs) => jobs,
                Err(_) => return Err(EarlyEnd::WantOfMemory),
            }
        }
    };
    Ok(Answer { core, reply, jobs })
}

// Prints the reply, and a line for each job.
fn print_answer<K: Sink>(out: &mut Printer<K>, answer: &Answer)
    requires { ToldFits answer.now.core.cell (Answered answer.now.reply) }
    ensures { Prints K.Sink out.old out.new (answer_lines answer.now.core.cell answer.now.reply answer.now.jobs) }
{
    out.line(&reply_line(answer.core.cell(), &answer.reply));
    print_jobs(out, answer.jobs.as_slice());
}

// Prints the line of each job.
fn print_jobs<K: Sink>(out: &mut Printer<K>, jobs: &[JobId])
    ensures { Prints K.Sink out.old out.new (map job_line jobs.now) }
{
    for job in jobs {
        out.line(&job_line(*job));
    }
}
