//! `solve`: from the bytes of a problem's file to the bytes of the answer.

ghost use Rattle.std.specs.Prelude.{◌≡◌, ◌+◌, ◌*◌, List, ℕ, option_map, vec_len, IfSome, MatchOption};
ghost use Rattle.std.specs.Duration.{as_nanos};
ghost use Rattle.cover_engines.specs.Solve.{unlinked_status, EndsAs, SolveSays};
ghost use Rattle.dlx_reader.specs.Devices.{failed_once};
ghost use Rattle.dlx_reader.specs.ProblemOf.{IsProblemOf};
ghost use Rattle.search_engines.specs.Output.{IsOutputOf};

use crate::followed_run::FollowedRun;
use crate::network::{Network, NetworkFault};
use crate::quiet_run::QuietRun;
use crate::solve::{SolveTask, solve_problem};
use dlx_reader::{Read, Sink, Source};
use run_settings::{Request, Settings};
use search_engines::{
    EngineFault, InputNames, LineStyle, ProgressLog, read_whole, tell, tell_failure, tell_fault,
    tell_unbound,
};
use std::alloc::Global;
use std::sync::Wait;
use std::thread::Threads;
use std::time::{Clock, Duration};

/// How many bytes a megabyte of a request has.
const MEGABYTE: u64 = 1_000_000;

/// What `solve` runs on.
#[derive(Drop)]
pub struct Host<'a, N: Network, R: Threads + Wait + Clock + Sync> {
    /// Where its threads come from.
    pub rt: &'a R,
    /// Where its memory comes from.
    pub alloc: Global,
    /// Where its sites get their links.
    pub network: N,
    /// How its lines of progress follow one another.
    pub lines: LineStyle,
    /// How many bytes the books of a run may take together where the request doesn't say.
    pub book_bytes: u64,
}

impl<N: Network, R: Threads + Wait + Clock + Sync> Host<'_, N, R> {
    /// Reads a problem to its end, lets sites search it as the request has it, writes the answer, and with an audit
    /// what that found, and returns the exit status: 0 for a cover, 1 for none, 4 for no answer, 6 where the audit is
    /// unclean.
    ///
    /// The other statuses are 3, where a device failed, the text is refused or no links could be had, and 5 if memory
    /// ran out. Where the sink failed a beginning of the text was written, else nothing. The links are had before any
    /// thread starts. What is wrong, how many options were ignored, and how far the search is, if the request has it
    /// so, is written to the other sink, whose faults are passed over.
    #[tactic(auto, using(crate::proofs::Ends::ends_unread, crate::proofs::Ends::ends_read))]
    pub fn solve<S: Source, W: Sink, E: Sink + Send>(
        &self,
        request: &Request<'_>,
        source: &mut S,
        sink: &mut W,
        errors: &mut E,
    ) -> u8
        ensures { IfSome (S.remaining source.old) (λ text. EndsAs
            (SolveSays request.now.settings) (N.has_refused self.now.network request.now.settings.nodes)
            (S.failed source.new ≡ failed_once (S.failed source.old)) (W.failed sink.new ≡ failed_once (W.failed sink.old))
            text (W.contents sink.old) (W.contents sink.new) result) }
    {
        match read_whole(self.alloc, source) {
            Ok(read) => self.solve_read(request, &read, sink, errors),
            Err(failure) => tell_failure(&failure, names_of(&request.settings), errors),
        }
    }

    /// The same of a problem that was read.
    #[tactic(auto, using(crate::proofs::Ends::ends_unlinked, crate::proofs::Ends::ends_said, crate::proofs::Ends::ends_stopped))]
    fn solve_read<W: Sink, E: Sink + Send>(
        &self,
        request: &Request<'_>,
        read: &Read,
        sink: &mut W,
        errors: &mut E,
    ) -> u8
        ensures { (text : List ℕ) → IsProblemOf text read.now.problem read.now.ignored → EndsAs
            (SolveSays request.now.settings) (N.has_refused self.now.network request.now.settings.nodes)
            ⊥ (W.failed sink.new ≡ failed_once (W.failed sink.old))
            text (W.contents sink.old) (W.contents sink.new) result }
    {
        let links = match self.network.links(self.alloc, request.settings.nodes) {
            Ok(links) => links,
            Err(fault) => return tell_unlinked(fault, errors),
        };
        match self.search(request, read, links, sink, errors) {
            Ok(status) => status,
            Err(fault) => tell_fault(&fault, errors),
        }
    }

    /// Lets sites search a problem over these links, reports how many options were ignored and why there is no answer,
    /// and returns the exit status of what is written.
    fn search<W: Sink, E: Sink + Send>(
        &self,
        request: &Request<'_>,
        read: &Read,
        links: Vec<N::End>,
        sink: &mut W,
        errors: &mut E,
    ) -> Result<u8, EngineFault>
        requires links { vec_len links ≡ request.now.settings.nodes + 1 }
        ensures output { IsOutputOf (SolveSays request.now.settings read.now.problem)
            (W.contents sink.old) (W.contents sink.new) result }
        ensures failed { result ≡ Err EngineFault.Write → W.failed sink.new ≡ failed_once (W.failed sink.old) }
    {
        if request.progress {
            self.search_followed(request, read, links, sink, errors)
        } else {
            self.search_quietly(request, read, links, sink, errors)
        }
    }

    /// Lets sites search, and writes nothing of it meanwhile, unless many jobs count more prefixes than a job can.
    #[tactic(auto, using(crate::proofs::Ends::said_with))]
    fn search_quietly<W: Sink, E: Sink + Send>(
        &self,
        request: &Request<'_>,
        read: &Read,
        links: Vec<N::End>,
        sink: &mut W,
        errors: &mut E,
    ) -> Result<u8, EngineFault>
        requires links { vec_len links ≡ request.now.settings.nodes + 1 }
        ensures output { IsOutputOf (SolveSays request.now.settings read.now.problem)
            (W.contents sink.old) (W.contents sink.new) result }
        ensures failed { result ≡ Err EngineFault.Write → W.failed sink.new ≡ failed_once (W.failed sink.old) }
    {
        let task = task_of(request, read, self.book_bytes);
        let quiet = QuietRun::new(self.rt, &mut *errors);
        let solved = solve_problem(self.rt, self.alloc, task, links, &quiet, sink);
        let reason = quiet.reason();
        // (it borrows the sink of errors, to which lines are written next)
        drop(quiet);
        if let Ok(status) = &solved {
            tell(*status, read.ignored, errors);
            tell_reason(reason, errors);
        }
        solved
    }

    /// Lets sites search, and writes meanwhile how far the run has come.
    #[tactic(auto, using(crate::proofs::Ends::said_with))]
    fn search_followed<W: Sink, E: Sink + Send>(
        &self,
        request: &Request<'_>,
        read: &Read,
        links: Vec<N::End>,
        sink: &mut W,
        errors: &mut E,
    ) -> Result<u8, EngineFault>
        requires links { vec_len links ≡ request.now.settings.nodes + 1 }
        ensures output { IsOutputOf (SolveSays request.now.settings read.now.problem)
            (W.contents sink.old) (W.contents sink.new) result }
        ensures failed { result ≡ Err EngineFault.Write → W.failed sink.new ≡ failed_once (W.failed sink.old) }
    {
        let (rt, alloc) = (self.rt, self.alloc);
        let task = task_of(request, read, self.book_bytes);
        let log = ProgressLog::new(&mut *errors, self.lines);
        let Ok(followed) = FollowedRun::new(rt, alloc, task.problem, log) else {
            return Err(EngineFault::Memory);
        };
        let solved = solve_problem(rt, alloc, task, links, &followed, sink);
        // (it borrows the sink of errors, to which a line is written next)
        drop(followed);
        if let Ok(status) = &solved {
            tell(*status, read.ignored, errors);
        }
        solved
    }
}

/// The names of the files that a command reads.
pub fn names_of<'a>(settings: &Settings<'a>) -> InputNames<'a> {
    InputNames {
        file: settings.file,
        answer: settings.answer,
    }
}

/// The problem that was read, to be searched as the request has it, and by books of so many bytes where it doesn't say
/// of how many.
fn task_of<'a>(request: &'a Request<'_>, read: &'a Read, book_bytes: u64) -> SolveTask<'a>
    ensures settings { result.settings.now ≡ request.now.settings }
    ensures problem { result.problem.now ≡ read.now.problem }
{
    SolveTask {
        problem: &read.problem,
        settings: &request.settings,
        limit: limit_of(request),
        book_bytes: bound_of(request, book_bytes),
    }
}

/// How many bytes the books of a run may take together: so many where the request doesn't say.
fn bound_of(request: &Request<'_>, book_bytes: u64) -> u64
    ensures { MatchOption request.now.megabytes (result ≡ book_bytes) (λ megabytes. result ≡ megabytes * 1000000) }
{
    match request.megabytes {
        Some(megabytes) => u64::from(megabytes) * MEGABYTE,
        None => book_bytes,
    }
}

/// How long a run may last, if it is limited.
fn limit_of(request: &Request<'_>) -> Option<Duration>
    ensures { MatchOption result (request.now.seconds ≡ None)
        (λ limit. option_map (λ seconds. seconds * 1000000000) request.now.seconds ≡ Some (as_nanos limit)) }
{
    let seconds = request.seconds?;
    Some(Duration::from_secs(u64::from(seconds)))
}

/// Reports why there is no answer, if there is none. A fault of the sink is passed over.
fn tell_reason<E: Sink>(reason: Option<&str>, errors: &mut E) {
    if let Some(reason) = reason {
        let _ = writeln!(errors, "ended: {reason}");
    }
}

/// Reports why no links could be had, and returns the exit status: 5 if memory ran out, else 3.
fn tell_unlinked<E: Sink>(fault: NetworkFault, errors: &mut E) -> u8
    ensures { result ≡ unlinked_status fault }
{
    match fault {
        NetworkFault::Memory => tell_fault(&EngineFault::Memory, errors),
        NetworkFault::NoSockets => tell_unbound(errors),
        NetworkFault::NoKey => {
            let _ = writeln!(
                errors,
                "cannot draw a key: the system gives no random bytes"
            );
            3
        }
    }
}
